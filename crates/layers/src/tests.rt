use crate::pins::Pins;
use crate::reach::Reach;
use lines::fault::{Cause, Fault, Layer};
use lines::level::Level;
use lines::line::Line;
use lines::vertex::Vertex;
use measures::area::Area;
use measures::measure::Measure;
use measures::segment::Segment;
use std::process::Abort;
use std::test::Fail;

// Five vertices in a row, then one that lies off it.
static BENT: [Vertex; 6] = [
    Vertex { x: 0, y: 0 },
    Vertex { x: 1, y: 0 },
    Vertex { x: 2, y: 0 },
    Vertex { x: 3, y: 0 },
    Vertex { x: 4, y: 0 },
    Vertex { x: 5, y: 9 },
];

// The answer is a refusal with this cause and place.
fn refused(rt: &impl Abort, answer: Result<(), Fault>, cause: Cause, place: usize) {
    assert_eq!(rt; answer, Err(Fault::new(cause, Layer::Content, place)));
}

// What making a layer answers, without the layer.
fn answer<T: Drop>(made: Result<T, Fault>) -> Result<(), Fault> {
    made.map(|_| ())
}

fn limits<M: Measure + Copy>(rt: &impl Abort, below: M) {
    for n in [2, 256] {
        assert_eq!(rt; answer(Pins::over(below, n)), Ok(()));
    }
    for n in [1, 257] {
        refused(rt, answer(Pins::over(below, n)), Cause::Limits, 0);
    }
    for r in [1, 255] {
        assert_eq!(rt; answer(Reach::over(below, r)), Ok(()));
    }
    for r in [0, 256] {
        refused(rt, answer(Reach::over(below, r)), Cause::Limits, 2);
    }
}

#[test]
fn making_a_layer(rt: HostRuntime) {
    limits(&rt, Segment);
}

fn inner<M: Measure + Copy>(rt: &impl Abort, below: M) -> Result<(), Fail> {
    let mut five = Pins::over(below, 5)?;
    for v in [0, 4, 5] {
        refused(rt, five.pin(v), Cause::Vertex, v);
    }
    five.pin(1)?;
    five.pin(3)?;
    let mut two = Pins::over(below, 2)?;
    for v in [0, 1, 2] {
        refused(rt, two.pin(v), Cause::Vertex, v);
        refused(rt, two.release(v), Cause::Vertex, v);
    }
    Ok(())
}

#[test]
fn only_inner_vertices(rt: HostRuntime) -> Result<(), Fail> {
    inner(&rt, Area)
}

fn places<M: Measure + Drop>(rt: &impl Abort, below: M) -> Result<(), Fail> {
    let mut layer = Pins::over(below, 40)?;
    for v in 1..33 {
        layer.pin(v)?;
    }
    refused(rt, layer.pin(33), Cause::Full, 0);
    refused(rt, layer.pin(5), Cause::Pinned, 5);
    refused(rt, layer.release(33), Cause::NotPinned, 33);
    layer.release(7)?;
    refused(rt, layer.release(7), Cause::NotPinned, 7);
    layer.pin(33)?;
    refused(rt, layer.pin(7), Cause::Full, 0);
    let pins = layer.pins();
    assert!(rt; pins.len() == 32);
    assert!(rt; pins[5] == 6 && pins[6] == 8 && pins[30] == 32 && pins[31] == 33);
    Ok(())
}

#[test]
fn thirty_two_places(rt: HostRuntime) -> Result<(), Fail> {
    places(&rt, Segment)
}

fn sheet<M: Measure + Drop>(rt: &impl Abort, below: M) -> Result<(), Fail> {
    let mut layer = Pins::over(below, 9)?;
    assert_eq!(rt;
        layer.pin_in(8, Layer::Sheet),
        Err(Fault::new(Cause::Vertex, Layer::Sheet, 8))
    );
    assert_eq!(rt;
        layer.release_in(7, Layer::Sheet),
        Err(Fault::new(Cause::NotPinned, Layer::Sheet, 7))
    );
    Ok(())
}

#[test]
fn told_the_layer(rt: HostRuntime) -> Result<(), Fail> {
    sheet(&rt, Segment)
}

// What a measure says: its answer for a link of the bent line at a tolerance.
struct Said(bool, usize, usize, u32);

fn says<M: Measure>(rt: &impl Abort, m: &M, all: &[Said]) -> Result<(), Fail> {
    let mut line = Line::built_in();
    line.make(&BENT)?;
    for s in all {
        assert!(rt; m.allows(&line, s.1, s.2, s.3) == s.0);
    }
    Ok(())
}

static LEVELS: [Level; 2] = [
    Level {
        tolerance: 0,
        weight: 1,
    },
    Level {
        tolerance: 9,
        weight: 1,
    },
];

// The first of the two levels that allows a link of the bent line, or 3 where none does: the numbers that the test expects.
struct Graded(usize, usize, usize);

fn grades<M: Measure>(rt: &impl Abort, m: &M, all: &[Graded]) -> Result<(), Fail> {
    let mut line = Line::built_in();
    line.make(&BENT)?;
    for g in all {
        assert!(rt;
            m.first_level(&line, &LEVELS, g.1, g.2)
                .unwrap_or(LEVELS.len() + 1)
                == g.0
        );
    }
    Ok(())
}

static TWO: [Said; 8] = [
    Said(true, 0, 2, 0),
    Said(false, 0, 3, 0),
    Said(false, 2, 5, 0),
    Said(true, 2, 5, 9),
    Said(false, 1, 5, 9),
    Said(true, 4, 5, 32768),
    Said(false, 4, 5, 32769),
    Said(false, 5, 6, 9),
];

fn two_layers<M: Measure + Drop>(rt: &impl Abort, below: M) -> Result<(), Fail> {
    let mut pins = Pins::over(below, 6)?;
    pins.pin(2)?;
    let pile = Reach::over(pins, 3)?;
    says(rt, &pile, &TWO)?;
    grades(
        rt,
        &pile,
        &[Graded(1, 0, 2), Graded(2, 2, 5), Graded(3, 0, 3)],
    )
}

#[test]
fn reach_over_pins(rt: HostRuntime) -> Result<(), Fail> {
    two_layers(&rt, Segment)
}

static THREE: [Said; 4] = [
    Said(true, 2, 4, 0),
    Said(false, 1, 3, 0),
    Said(false, 2, 5, 9),
    Said(false, 3, 5, 9),
];

// The largest tolerance of the measure's kind.
fn largest<M: Measure>(_m: &M) -> u32 {
    M::LARGEST
}

fn three_layers<M: Measure + Drop>(rt: &impl Abort, below: M, most: u32) -> Result<(), Fail> {
    let mut inside = Pins::over(below, 6)?;
    inside.pin(2)?;
    let mut pile = Pins::over(Reach::over(inside, 2)?, 6)?;
    pile.pin(4)?;
    says(rt, &pile, &THREE)?;
    grades(rt, &pile, &[Graded(1, 3, 4), Graded(3, 3, 5)])?;
    assert_eq!(rt; largest(&pile), most);
    Ok(())
}

#[test]
fn pins_over_reach_over_pins(rt: HostRuntime) -> Result<(), Fail> {
    three_layers(&rt, Segment, 32768)?;
    three_layers(&rt, Area, 2147483647)
}
