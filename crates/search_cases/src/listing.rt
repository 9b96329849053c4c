// All families of small lines, listed one by one: the search answers the cheapest total of all.
use crate::memory::{Noise, at, level, search};
use layers::pins::Pins;
use lines::fault::Fault;
use lines::level::Level;
use lines::line::Line;
use lines::vertex::Vertex;
use measures::area::Area;
use measures::measure::Measure;
use measures::segment::Segment;
use measures::strip::Strip;
use prices::count::Count;
use prices::count_then_area::CountThenArea;
use prices::price::Price;
use search::chain::next_on_chain;
use std::process::Abort;
use std::test::Fail;

// The prices of the links of level k joined to a sum, or none where a link is not allowed. It serves `total` alone.
fn with_level<M: Measure, P: Price>(
    measure: &M,
    line: &Line,
    level: Level,
    k: usize,
    stays: &[u8],
    sum: P,
) -> Option<P> {
    let mut sum = sum;
    let mut v = 0;
    // A walk: each step asks for the next vertex, and a chain has no more links than there are stays.
    for _ in 0..stays.len() {
        let Some(w) = next_on_chain(stays, k, v) else {
            return Some(sum);
        };
        if !measure.allows(line, v, w, level.tolerance) {
            return None;
        }
        sum = sum.join(P::of_link(line, v, w, level.weight));
        v = w;
    }
    Some(sum)
}

// The total of the family with these stays, or none where they are no family.
fn total<M: Measure, P: Price>(
    measure: &M,
    line: &Line,
    levels: &[Level; 2],
    stays: &[u8],
) -> Option<P> {
    let fine = with_level(measure, line, levels[0], 1, stays, P::neutral())?;
    with_level(measure, line, levels[1], 2, stays, fine)
}

// The cheapest total over all stays of six vertices and two levels; the ends stay to level 2.
fn cheapest<M: Measure, P: Price>(measure: &M, line: &Line, levels: &[Level; 2]) -> Option<P> {
    (0..81u8)
        .filter_map(|code| {
            let stays = [2, code % 3, code / 3 % 3, code / 9 % 3, code / 27, 2];
            total::<M, P>(measure, line, levels, &stays)
        })
        .reduce(cheaper)
}

fn cheaper<P: Price>(a: P, b: P) -> P {
    if a.not_dearer(b) { a } else { b }
}

// The search and the listing agree.
fn agree<M: Measure, P: Price>(
    rt: &impl Abort,
    measure: &M,
    line: &Line,
    levels: &[Level; 2],
    prices: &mut [P],
) -> Result<(), Fail> {
    let Some(least) = cheapest::<M, P>(measure, line, levels) else {
        return Err(Fail::new("no family"));
    };
    for weight in [0, u32::MAX] {
        let noise = Noise { byte: 5, weight };
        let found = search::<M, P>(measure, line, levels, noise, prices);
        assert_eq!(rt; found.total?.form(), least.form());
    }
    Ok(())
}

// Six vertices drawn from a start.
fn drawn(start: u32) -> [Vertex; 6] {
    let mut state = start;
    let mut vertices = [at(0, 0); 6];
    for v in vertices.iter_mut() {
        state = state.wrapping_mul(1664525).wrapping_add(1013904223);
        *v = at(((state >> 16) & 15) as i16, ((state >> 24) & 15) as i16);
    }
    vertices
}

// The measure on forty lines, under both prices.
fn in_memory<M: Measure>(
    rt: &impl Abort,
    measure: &M,
    levels: &[Level; 2],
    counts: &mut [Count],
    pairs: &mut [CountThenArea],
) -> Result<(), Fail> {
    for start in 0..40u32 {
        let vertices = drawn(start);
        let mut line = Line::built_in();
        line.make(&vertices)?;
        agree(rt, measure, &line, levels, counts)?;
        agree(rt, measure, &line, levels, pairs)?;
    }
    Ok(())
}

fn on_many_lines<M: Measure>(
    rt: &impl Abort,
    measure: &M,
    levels: &[Level; 2],
) -> Result<(), Fail> {
    let mut counts = [Count { count: 5 }; 72];
    let mut pairs = [CountThenArea { count: 5, area: 5 }; 72];
    in_memory(rt, measure, levels, &mut counts, &mut pairs)
}

fn levels(fine: u32, coarse: u32) -> [Level; 2] {
    [level(fine, 2), level(coarse, 3)]
}

#[test]
fn segment_and_strip(rt: HostRuntime) -> Result<(), Fail> {
    on_many_lines(&rt, &Segment, &levels(2, 6))?;
    on_many_lines(&rt, &Strip, &levels(2, 6))
}

#[test]
fn area(rt: HostRuntime) -> Result<(), Fail> {
    on_many_lines(&rt, &Area, &levels(10, 50))
}

fn with_a_pin<M: Measure + Drop>(
    rt: &impl Abort,
    layer: Result<Pins<M>, Fault>,
) -> Result<(), Fail> {
    let mut pins = layer?;
    pins.pin(2)?;
    on_many_lines(rt, &pins, &levels(3, 9))
}

#[test]
fn under_a_pin(rt: HostRuntime) -> Result<(), Fail> {
    with_a_pin(&rt, Pins::over(Segment, 6))
}
