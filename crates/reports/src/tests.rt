// Shares, lengths and least tolerances of worked lines, and the report of the worked family.
use crate::link::{least_tolerance, length_down};
use crate::report::report_pack;
use crate::share::share;
use crate::text::report_text;
use drawings::drawing::DrawError;
use lines::fault::{Cause, Fault, Layer};
use lines::line::Line;
use lines::vertex::Vertex;
use measures::area::Area;
use measures::measure::Measure;
use measures::segment::Segment;
use measures::strip::Strip;
use std::process::Abort;
use std::test::Fail;

fn at(x: i16, y: i16) -> Vertex {
    Vertex { x, y }
}

#[test]
fn shares(rt: HostRuntime) {
    let cases = [
        (0, 0, 0),
        (5, 0, 0),
        (0, 5, 0),
        (2, 5, 400),
        (4, 5, 800),
        (5, 5, 1000),
        (2, 3, 666),
        (255, 256, 996),
        (3, 2, 1500),
        (usize::MAX, usize::MAX, 1000),
        (usize::MAX, 1001, 18_428_315_757_951_600_014),
        (usize::MAX, 999, usize::MAX),
    ];
    for (kept, n, answer) in cases {
        assert_eq!(&rt; share(kept, n), answer);
    }
}

// The link i → j of these vertices has this length.
fn has_length(
    rt: &impl Abort,
    vertices: &[Vertex],
    i: usize,
    j: usize,
    length: u64,
) -> Result<(), Fail> {
    let mut line = Line::built_in();
    line.make(vertices)?;
    assert_eq!(rt; length_down(&line, i, j), length);
    Ok(())
}

#[test]
fn lengths(rt: HostRuntime) -> Result<(), Fail> {
    let along = [at(0, 0), at(5, 0), at(3, 0)];
    has_length(&rt, &along, 0, 1, 5)?;
    has_length(&rt, &along, 0, 2, 3)?;
    has_length(&rt, &along, 2, 1, 0)?;
    has_length(&rt, &along, 0, 3, 0)?;
    let beside = [at(0, 0), at(1, 7), at(8, 6)];
    has_length(&rt, &beside, 0, 1, 7)?;
    has_length(&rt, &beside, 0, 2, 10)?;
    has_length(&rt, &[at(3, 4), at(3, 4)], 0, 1, 0)?;
    let corners = [at(-16384, -16384), at(16383, -16384), at(16383, 16383)];
    has_length(&rt, &corners, 0, 1, 32_767)?;
    has_length(&rt, &corners, 0, 2, 46_339)
}

// The link 0 → 2 of these vertices has this least tolerance.
fn first_at<M: Measure>(
    rt: &impl Abort,
    measure: &M,
    vertices: &[Vertex],
    least: Option<u32>,
) -> Result<(), Fail> {
    let mut line = Line::built_in();
    line.make(vertices)?;
    assert_eq!(rt; least_tolerance(measure, &line, 0, 2), least);
    Ok(())
}

#[test]
fn least_tolerances(rt: HostRuntime) -> Result<(), Fail> {
    let along = [at(0, 0), at(5, 0), at(3, 0)];
    first_at(&rt, &Segment, &along, Some(2))?;
    first_at(&rt, &Strip, &along, Some(0))?;
    first_at(&rt, &Segment, &[at(0, 0), at(1, 7), at(8, 6)], Some(5))?;
    let back = [at(0, 0), at(3, 4), at(0, 0)];
    first_at(&rt, &Segment, &back, Some(5))?;
    first_at(&rt, &Strip, &back, Some(5))?;
    first_at(&rt, &Area, &back, Some(0))?;
    let corners = [at(-16384, -16384), at(16383, -16384), at(16383, 16383)];
    first_at(&rt, &Segment, &corners, Some(23_170))?;
    first_at(&rt, &Area, &corners, Some(1_073_676_289))?;
    let far = [at(-16384, -16384), at(16383, 16383), at(-16384, -16384)];
    first_at(&rt, &Segment, &far, None)?;
    first_at(&rt, &Segment, &[at(0, 0), at(1, 0)], None)
}

static FAMILY: [u8; 98] = [
    2, 0, 0, 0, 1, 0, 1, 1, 20, 0, 0, 0, 2, 0, 0, 0, 0, 0, 2, 0, 1, 0, 4, 0, 0, 0, 6, 0, 3, 0, 8,
    0, 0, 0, 16, 0, 0, 0, 3, 0, 1, 0, 0, 0, 1, 0, 0, 0, 3, 0, 0, 0, 1, 0, 0, 0, 8, 0, 0, 0, 4, 0,
    0, 0, 2, 0, 3, 0, 4, 0, 4, 0, 0, 0, 4, 0, 0, 0, 4, 0, 12, 0, 0, 0, 5, 0, 4, 0, 0, 0, 0, 0, 0,
    0, 0, 0, 0, 0,
];

#[test]
fn the_worked_family(rt: HostRuntime) -> Result<(), Fail> {
    let heap = rt.alloc();
    let report = report_pack(heap, &FAMILY)?;
    let table =
        "| Level | Tolerance | Weight | Links | Kept | Share | Longest | Enough | Price | Alone |\n|---|---|---|---|---|---|---|---|---|---|\n| 1 | 1 | 1 | 3 | 4 | 800 | 4 | 1 | 3 0 | 3 0 |\n| 2 | 3 | 1 | 1 | 2 | 400 | 8 | 3 | 1 0 | 1 0 |\n\nTotal 4 0\n";
    assert!(&rt; report_text(heap, &report)?.as_str() == table);
    Ok(())
}

#[test]
fn no_family(rt: HostRuntime) -> Result<(), Fail> {
    let Err(DrawError::Refused(fault)) = report_pack(rt.alloc(), &FAMILY[..56]) else {
        panic!(&rt; "no refusal");
    };
    assert_eq!(&rt; fault, Fault::new(Cause::RunsOut, Layer::Pack, 0));
    Ok(())
}
