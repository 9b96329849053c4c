// Worked examples: approvals on seven and on four vertices.
use crate::memory::{at, finds, level};
use approvals::approvals::Approvals;
use layers::pins::Pins;
use layers::reach::Reach;
use lines::fault::Fault;
use lines::line::Line;
use measures::measure::Measure;
use prices::count::Count;
use prices::count_then_area::CountThenArea;
use std::process::Abort;
use std::test::Fail;

// 1 → 5 from 1; 0 → 3 and 3 → 6 from 2.
fn seven() -> Result<Approvals, Fault> {
    let mut approvals = Approvals::new();
    approvals.approve(1, 5, 1)?;
    approvals.approve(0, 3, 2)?;
    approvals.approve(3, 6, 2)?;
    Ok(approvals)
}

// The form of the total and the stays on seven vertices, under two levels with these weights.
fn seven_finds<M: Measure>(
    rt: &impl Abort,
    measure: &M,
    weight: u32,
    total: u32,
    stays: &[u8],
) -> Result<(), Fail> {
    let vertices = [at(0, 0); 7];
    let mut line = Line::built_in();
    line.make(&vertices)?;
    let levels = [level(1, 1), level(2, weight)];
    let mut prices = [Count { count: 0 }; 128];
    finds(rt, measure, &line, &levels, (total, 0), stays, &mut prices)
}

#[test]
fn nested_levels(rt: HostRuntime) -> Result<(), Fail> {
    seven_finds(&rt, &seven()?, 1, 6, &[2, 2, 0, 0, 0, 2, 2])
}

#[test]
fn a_heavy_coarse_level(rt: HostRuntime) -> Result<(), Fail> {
    seven_finds(&rt, &seven()?, 10, 26, &[2, 1, 1, 2, 1, 1, 2])
}

// With vertex 3 pinned, and released again.
fn pinned<M: Measure + Drop>(rt: &impl Abort, layer: Result<Pins<M>, Fault>) -> Result<(), Fail> {
    let mut pins = layer?;
    pins.pin(3)?;
    seven_finds(rt, &pins, 1, 8, &[2, 1, 1, 2, 1, 1, 2])?;
    pins.release(3)?;
    seven_finds(rt, &pins, 1, 6, &[2, 2, 0, 0, 0, 2, 2])
}

#[test]
fn a_pin_and_its_release(rt: HostRuntime) -> Result<(), Fail> {
    pinned(&rt, Pins::over(seven()?, 7))
}

// A reach of 3 over pins: the link 1 → 5 is too long for it.
fn piled<M: Measure + Drop>(rt: &impl Abort, layer: Result<Pins<M>, Fault>) -> Result<(), Fail> {
    reached(rt, Reach::over(layer?, 3))
}

fn reached<M: Measure + Drop>(rt: &impl Abort, layer: Result<Reach<M>, Fault>) -> Result<(), Fail> {
    let reach = layer?;
    seven_finds(rt, &reach, 1, 8, &[2, 1, 1, 2, 1, 1, 2])?;
    piled_again(rt, Pins::over(reach, 7))
}

// Pins over a reach over pins: with 1 pinned, 0 → 3 is gone.
fn piled_again<M: Measure + Drop>(
    rt: &impl Abort,
    layer: Result<Pins<M>, Fault>,
) -> Result<(), Fail> {
    let mut pins = layer?;
    pins.pin(1)?;
    seven_finds(rt, &pins, 1, 10, &[2, 2, 2, 2, 1, 1, 2])
}

#[test]
fn layers_two_and_three_deep(rt: HostRuntime) -> Result<(), Fail> {
    piled(&rt, Pins::over(seven()?, 7))
}

// 0 → 2 and 1 → 3 from 1, on four vertices.
fn four() -> Result<Approvals, Fault> {
    let mut approvals = Approvals::new();
    approvals.approve(0, 2, 1)?;
    approvals.approve(1, 3, 1)?;
    Ok(approvals)
}

#[test]
fn a_tie_goes_to_the_smaller_vertex(rt: HostRuntime) -> Result<(), Fail> {
    let vertices = [at(0, 0), at(2, 1), at(4, 3), at(6, 0)];
    let mut line = Line::built_in();
    line.make(&vertices)?;
    let levels = [level(1, 1)];
    let mut counts = [Count { count: 0 }; 128];
    finds(
        &rt,
        &four()?,
        &line,
        &levels,
        (2, 0),
        &[1, 1, 0, 1],
        &mut counts,
    )?;
    let mut pairs = [CountThenArea { count: 0, area: 0 }; 128];
    finds(
        &rt,
        &four()?,
        &line,
        &levels,
        (2, 2),
        &[1, 0, 1, 1],
        &mut pairs,
    )
}

// On four vertices at one point, where no link has an area, both prices find this count and these stays under two levels.
fn both_find(rt: &impl Abort, approvals: &Approvals, count: u32, stays: &[u8]) -> Result<(), Fail> {
    let vertices = [at(0, 0); 4];
    let mut line = Line::built_in();
    line.make(&vertices)?;
    let levels = [level(1, 1), level(2, 1)];
    let form = (count, 0);
    let mut counts = [Count { count: 0 }; 128];
    finds(rt, approvals, &line, &levels, form, stays, &mut counts)?;
    let mut pairs = [CountThenArea { count: 0, area: 0 }; 128];
    finds(rt, approvals, &line, &levels, form, stays, &mut pairs)
}

// Level 1 has all vertices. Over it 0 1 3 and 0 2 3 cost the same at level 2, and 0 1 3 is taken.
#[test]
fn a_tie_on_a_coarse_level(rt: HostRuntime) -> Result<(), Fail> {
    let mut approvals = Approvals::new();
    approvals.approve(0, 2, 2)?;
    approvals.approve(1, 3, 2)?;
    both_find(&rt, &approvals, 5, &[2, 2, 1, 2])
}

// Level 2 is 0 3. Under that link 0 1 3 and 0 2 3 cost the same at level 1, and 0 1 3 is taken.
#[test]
fn a_tie_below_a_coarse_link(rt: HostRuntime) -> Result<(), Fail> {
    let mut approvals = four()?;
    approvals.approve(0, 3, 2)?;
    both_find(&rt, &approvals, 3, &[2, 1, 0, 2])
}
