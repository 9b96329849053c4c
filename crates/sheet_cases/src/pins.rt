// Thirty-two pins, and vertices that take none.
use crate::memory::{at, draws, level};
use approvals::approvals::Approvals;
use lines::fault::{Cause, Fault, Layer};
use lines::line::Line;
use measures::segment::Segment;
use prices::count::Count;
use sheets::sheet::Sheet;
use std::test::Fail;

// Stays of forty vertices that are 2 but for 0 at the vertices from 34 to 38, and at one more.
fn without(v: usize) -> [u8; 40] {
    let mut stays = [2; 40];
    for (w, stay) in stays.iter_mut().enumerate() {
        if w == v || 34 <= w && w <= 38 {
            *stay = 0;
        }
    }
    stays
}

// 6 → 8, 33 → 39 and 0 → 39 are allowed. With 1 to 32 pinned no chain skips 7; once 7 is released and 33 pinned in its place, both chains do.
#[test]
fn thirty_two_places(rt: HostRuntime) -> Result<(), Fail> {
    let mut approvals = Approvals::new();
    approvals.approve(0, 39, 1)?;
    approvals.approve(6, 8, 1)?;
    approvals.approve(33, 39, 1)?;
    let vertices = [at(0, 0); 40];
    let mut line = Line::built_in();
    line.make(&vertices)?;
    let levels = [level(1, 1), level(2, 1)];
    let mut sheet = Sheet::<Approvals, Count>::open(40, &levels, approvals)?;
    for v in 1..33 {
        sheet.pin(v)?;
    }
    let full = Err(Fault::new(Cause::Full, Layer::Sheet, 0));
    let pinned = Err(Fault::new(Cause::Pinned, Layer::Sheet, 5));
    draws(&rt, &sheet, &line, (68, 0), &without(34))?;
    assert_eq!(rt; sheet.pin(33), full);
    assert_eq!(rt; sheet.pin(5), pinned);
    sheet.release(7)?;
    sheet.pin(33)?;
    assert_eq!(rt; sheet.pin(7), full);
    draws(&rt, &sheet, &line, (66, 0), &without(7))
}

// A line of two vertices has no inner one.
#[test]
fn no_inner_vertex(rt: HostRuntime) -> Result<(), Fail> {
    let levels = [level(1, 1), level(2, 1)];
    let mut sheet = Sheet::<Segment, Count>::open(2, &levels, Segment)?;
    for v in [0, 1, 2, usize::MAX] {
        let fault = Err(Fault::new(Cause::Vertex, Layer::Sheet, v));
        assert_eq!(rt; sheet.pin(v), fault);
        assert_eq!(rt; sheet.release(v), fault);
    }
    draws(&rt, &sheet, &Line::built_in(), (2, 0), &[2, 2])
}
