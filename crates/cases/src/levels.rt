// The marker called directly judges the levels itself, in its own layer.
use lines::fault::{Cause, Fault, Layer};
use lines::level::Level;
use lines::line::Line;
use lines::vertex::Vertex;
use marker::mark::mark;
use measures::segment::Segment;
use prices::count::Count;
use prices::price::Price;
use std::process::Abort;
use std::test::Fail;

// Two vertices: the only chain is 0 1.
static ENDS: [Vertex; 2] = [Vertex { x: 0, y: 0 }, Vertex { x: 3, y: 4 }];

// One chain record and the total (5, 0).
static ONE_LEVEL: [u8; 28] = [
    4, 0, 0, 0, 4, 0, 0, 0, 1, 0, 12, 0, 0, 0, 5, 0, 5, 0, 0, 0, 0, 0, 0, 0, 0, 0, 0, 0,
];

// A helper of tests: sharing it between crates would take a public function.
fn level(tolerance: u32, weight: u32) -> Level {
    Level { tolerance, weight }
}

// The marker refuses the levels with this fault.
fn check_fault(rt: &impl Abort, levels: &[Level], cause: Cause, place: usize) -> Result<(), Fail> {
    let mut line = Line::built_in();
    line.make(&ENDS)?;
    let answer = mark::<Segment, Count>(&Segment, &line, levels, &ONE_LEVEL);
    assert_eq!(rt; answer.err(), Some(Fault::new(cause, Layer::Marker, place)));
    Ok(())
}

#[test]
fn accepts_one_level(rt: HostRuntime) -> Result<(), Fail> {
    let mut line = Line::built_in();
    line.make(&ENDS)?;
    let total = mark::<Segment, Count>(&Segment, &line, &[level(0, 5)], &ONE_LEVEL)?;
    assert_eq!(rt; total.form(), (5, 0));
    Ok(())
}

#[test]
fn refuses_no_level_and_nine(rt: HostRuntime) -> Result<(), Fail> {
    check_fault(&rt, &[], Cause::Limits, 1)?;
    check_fault(&rt, &[level(0, 1); 9], Cause::Limits, 1)
}

#[test]
fn refuses_levels_one_by_one(rt: HostRuntime) -> Result<(), Fail> {
    check_fault(&rt, &[level(32769, 5)], Cause::Tolerance, 1)?;
    check_fault(&rt, &[level(0, 0)], Cause::Weight, 1)?;
    check_fault(&rt, &[level(0, 1001)], Cause::Weight, 1)?;
    check_fault(&rt, &[level(7, 1), level(7, 1)], Cause::Tolerance, 2)?;
    check_fault(&rt, &[level(7, 0), level(7, 1)], Cause::Weight, 1)?;
    check_fault(&rt, &[level(40000, 0), level(7, 1)], Cause::Tolerance, 1)
}
