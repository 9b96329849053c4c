// Worked examples, by the calls themselves: approvals on seven and on four vertices, pinned and released.
use crate::memory::{at, draws, level};
use approvals::approvals::Approvals;
use layers::pins::Pins;
use layers::reach::Reach;
use lines::fault::{Cause, Fault, Layer};
use lines::level::Level;
use lines::line::Line;
use prices::count::Count;
use prices::count_then_area::CountThenArea;
use prices::price::Price;
use sheets::sheet::Sheet;
use std::process::Abort;
use std::test::Fail;

// 1 → 5 from 1; 0 → 3 and 3 → 6 from 2.
pub(crate) fn seven() -> Result<Approvals, Fault> {
    let mut approvals = Approvals::new();
    approvals.approve(1, 5, 1)?;
    approvals.approve(0, 3, 2)?;
    approvals.approve(3, 6, 2)?;
    Ok(approvals)
}

// Two levels of weight 1, with the tolerances 1 and 2.
pub(crate) fn one_and_two() -> [Level; 2] {
    [level(1, 1), level(2, 1)]
}

// Both chains are 0 1 5 6.
pub(crate) static FREE: [u8; 7] = [2, 2, 0, 0, 0, 2, 2];

// With 3 pinned, level 1 has all vertices, and level 2 is 0 3 6.
pub(crate) static PINNED: [u8; 7] = [2, 1, 1, 2, 1, 1, 2];

fn pinned_and_released<P: Price>(rt: &(impl Abort + AllocGlobal)) -> Result<(), Fail> {
    let vertices = [at(0, 0); 7];
    let mut line = Line::built_in();
    line.make(&vertices)?;
    let mut sheet = Sheet::<Approvals, P>::open(7, &one_and_two(), seven()?)?;
    draws(rt, &sheet, &line, (6, 0), &FREE)?;
    sheet.pin(3)?;
    draws(rt, &sheet, &line, (8, 0), &PINNED)?;
    sheet.release(3)?;
    draws(rt, &sheet, &line, (6, 0), &FREE)
}

#[test]
fn a_pin_and_its_release(rt: HostRuntime) -> Result<(), Fail> {
    pinned_and_released::<Count>(&rt)?;
    pinned_and_released::<CountThenArea>(&rt)
}

// 0 → 2 and 1 → 3 from 1. Their areas are 2 and 10, so the price by area takes 0 → 2 while it may; on the same line drawn back it takes 1 → 3.
#[test]
fn a_pin_and_areas(rt: HostRuntime) -> Result<(), Fail> {
    let mut approvals = Approvals::new();
    approvals.approve(0, 2, 1)?;
    approvals.approve(1, 3, 1)?;
    let vertices = [at(0, 0), at(2, 1), at(4, 3), at(6, 0)];
    let mut line = Line::built_in();
    line.make(&vertices)?;
    let mut sheet = Sheet::<Approvals, CountThenArea>::open(4, &one_and_two(), approvals)?;
    draws(&rt, &sheet, &line, (4, 4), &[2, 0, 2, 2])?;
    let back = [at(6, 0), at(4, 3), at(2, 1), at(0, 0)];
    let mut line_back = Line::built_in();
    line_back.make(&back)?;
    draws(&rt, &sheet, &line_back, (4, 4), &[2, 2, 0, 2])?;
    sheet.pin(1)?;
    draws(&rt, &sheet, &line, (4, 20), &[2, 2, 0, 2])?;
    sheet.pin(2)?;
    draws(&rt, &sheet, &line, (6, 0), &[2, 2, 2, 2])
}

// A measure with a pin and a reach: the sheet lays its own pins over them, and does not know the pin below.
#[test]
fn a_measure_with_layers(rt: HostRuntime) -> Result<(), Fail> {
    let mut below = Pins::over(seven()?, 7)?;
    below.pin(3)?;
    let reach = Reach::over(below, 3)?;
    let vertices = [at(0, 0); 7];
    let mut line = Line::built_in();
    line.make(&vertices)?;
    let mut sheet = Sheet::<Reach<Pins<Approvals>>, Count>::open(7, &one_and_two(), reach)?;
    draws(&rt, &sheet, &line, (8, 0), &PINNED)?;
    let fault = Fault::new(Cause::NotPinned, Layer::Sheet, 3);
    assert_eq!(rt; sheet.release(3), Err(fault));
    sheet.pin(1)?;
    draws(&rt, &sheet, &line, (10, 0), &[2, 2, 2, 2, 1, 1, 2])?;
    sheet.release(1)?;
    draws(&rt, &sheet, &line, (8, 0), &PINNED)
}
