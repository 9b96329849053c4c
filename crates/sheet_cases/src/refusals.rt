// The refusals of each call on a sheet, that opening refuses in its order, and that a refused call leaves the sheet and the memories.
use crate::examples::{PINNED, one_and_two, seven};
use crate::memory::{Memory, NOISE, at, drawn, draws, enough, level, room};
use approvals::approvals::Approvals;
use lines::fault::{Cause, Fault, Layer};
use lines::level::Level;
use lines::line::Line;
use measures::segment::Segment;
use prices::count::Count;
use search::room::Room;
use sheets::sheet::Sheet;
use std::process::Abort;
use std::test::Fail;

// Opening a sheet under segment answers this: no fault, or one with a cause and a place.
fn opens(rt: &impl Abort, n: usize, levels: &[Level], cause: Option<Cause>, place: usize) {
    let opened = Sheet::<Segment, Count>::open(n, levels, Segment);
    let fault = cause.map(|cause| Fault::new(cause, Layer::Sheet, place));
    assert_eq!(rt; opened.err(), fault, "{n} vertices");
}

#[test]
fn opening(rt: HostRuntime) {
    let lawful = [level(0, 1), level(32768, 1000)];
    for n in [2, 256] {
        opens(&rt, n, &lawful, None, 0);
    }
    for n in [0, 1, 257] {
        opens(&rt, n, &lawful, Some(Cause::Limits), 0);
    }
    let mut nine = [level(0, 1); 9];
    for (k, level) in nine.iter_mut().enumerate() {
        level.tolerance = k as u32;
    }
    opens(&rt, 2, &nine[..8], None, 0);
    opens(&rt, 2, &nine, Some(Cause::Limits), 1);
    opens(&rt, 2, &[], Some(Cause::Limits), 1);
    let tolerance = Some(Cause::Tolerance);
    opens(&rt, 2, &[level(1, 1), level(1, 1)], tolerance, 2);
    opens(&rt, 2, &[level(2, 1), level(1, 1)], tolerance, 2);
    opens(&rt, 2, &[level(0, 1), level(32769, 1)], tolerance, 2);
    let weight = Some(Cause::Weight);
    opens(&rt, 2, &[level(0, 0)], weight, 1);
    opens(&rt, 2, &[level(0, 1), level(1, 1001)], weight, 2);
}

// With several things wrong at once, the vertices come first, then the number of levels, then the levels, tolerance before weight.
#[test]
fn opening_in_order(rt: HostRuntime) {
    let nine = [level(32769, 0); 9];
    opens(&rt, 257, &nine, Some(Cause::Limits), 0);
    opens(&rt, 1, &[], Some(Cause::Limits), 0);
    opens(&rt, 2, &nine, Some(Cause::Limits), 1);
    opens(&rt, 2, &nine[..8], Some(Cause::Tolerance), 1);
    let heavy_then_not_rising = [level(1, 1001), level(1, 1)];
    opens(&rt, 2, &heavy_then_not_rising, Some(Cause::Weight), 1);
}

// The sheet of the worked example, with 3 pinned.
fn pinned() -> Result<Sheet<Approvals, Count>, Fault> {
    let mut sheet = Sheet::open(7, &one_and_two(), seven()?)?;
    sheet.pin(3)?;
    Ok(sheet)
}

// The call was refused with this cause at this place, and the next draw is as before it.
fn refused(
    rt: &(impl Abort + AllocGlobal),
    answer: Result<(), Fault>,
    cause: Cause,
    place: usize,
    sheet: &Sheet<Approvals, Count>,
) -> Result<(), Fail> {
    assert_eq!(rt; answer, Err(Fault::new(cause, Layer::Sheet, place)));
    let vertices = [at(0, 0); 7];
    let mut line = Line::built_in();
    line.make(&vertices)?;
    draws(rt, sheet, &line, (8, 0), &PINNED)
}

#[test]
fn pinning(rt: HostRuntime) -> Result<(), Fail> {
    let mut sheet = pinned()?;
    for v in [0, 6, 7, usize::MAX] {
        let answer = sheet.pin(v);
        refused(&rt, answer, Cause::Vertex, v, &sheet)?;
    }
    let answer = sheet.pin(3);
    refused(&rt, answer, Cause::Pinned, 3, &sheet)
}

#[test]
fn releasing(rt: HostRuntime) -> Result<(), Fail> {
    let mut sheet = pinned()?;
    for v in [0, 6, 7, usize::MAX] {
        let answer = sheet.release(v);
        refused(&rt, answer, Cause::Vertex, v, &sheet)?;
    }
    let answer = sheet.release(2);
    refused(&rt, answer, Cause::NotPinned, 2, &sheet)
}

#[test]
fn retuning(rt: HostRuntime) -> Result<(), Fail> {
    let mut sheet = pinned()?;
    for (k, t, cause) in [
        (0, 1, Cause::Level),
        (3, 3, Cause::Level),
        (1, 2, Cause::Tolerance),
        (2, 1, Cause::Tolerance),
        (2, 32769, Cause::Tolerance),
    ] {
        let answer = sheet.retune(k, t);
        refused(&rt, answer, cause, k, &sheet)?;
    }
    Ok(())
}

// A draw of the first so many of eight vertices, in memories of these sizes, is refused and leaves them.
fn refuses(
    rt: &(impl Abort + AllocGlobal),
    count: usize,
    held: Room,
    cause: Cause,
    place: usize,
) -> Result<(), Fail> {
    let vertices = [at(0, 0); 8];
    let mut line = Line::built_in();
    line.make(&vertices[..count.min(8)])?;
    let sheet = pinned()?;
    let mut memory = Memory::filled(rt.alloc(), held, NOISE)?;
    let fault = Fault::new(cause, Layer::Sheet, place);
    assert_eq!(rt; drawn(&sheet, &line, &mut memory).err(), Some(fault));
    assert!(rt; memory.keeps(NOISE, room(0, 0, 0)), "memory");
    Ok(())
}

// A line of another count is refused before memory that falls short; of the memories, the first that falls short is told.
#[test]
fn drawing(rt: HostRuntime) -> Result<(), Fail> {
    for count in [6, 8] {
        refuses(&rt, count, room(64, 128, 8), Cause::OtherCount, count)?;
        refuses(&rt, count, room(0, 0, 0), Cause::OtherCount, count)?;
    }
    for (held, place) in [
        (room(48, 97, 6), 0),
        (room(48, 98, 7), 0),
        (room(49, 97, 6), 1),
        (room(49, 97, 7), 1),
        (room(49, 98, 6), 2),
    ] {
        refuses(&rt, 7, held, Cause::Memory, place)?;
    }
    let mut memory = Memory::filled(rt.alloc(), enough(), NOISE)?;
    let vertices = [at(0, 0); 7];
    let mut line = Line::built_in();
    line.make(&vertices)?;
    assert_eq!(rt; drawn(&pinned()?, &line, &mut memory)?.count, 8);
    Ok(())
}
