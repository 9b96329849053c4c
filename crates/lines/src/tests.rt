use crate::area::link_area;
use crate::fault::{Cause, Fault, Layer};
use crate::level::{Level, check_count, check_levels};
use crate::line::Line;
use crate::vertex::Vertex;
use std::process::Abort;
use std::test::Fail;

static THREE: [Vertex; 3] = [
    Vertex { x: 0, y: 0 },
    Vertex { x: 2, y: 1 },
    Vertex { x: 4, y: 3 },
];

static CAUSES: [Cause; 20] = [
    Cause::RunsOut,
    Cause::WrongKind,
    Cause::WrongLength,
    Cause::LeftOver,
    Cause::Coordinate,
    Cause::Tolerance,
    Cause::Weight,
    Cause::Unknown,
    Cause::Order,
    Cause::Nesting,
    Cause::Link,
    Cause::Total,
    Cause::Vertex,
    Cause::Pinned,
    Cause::NotPinned,
    Cause::Full,
    Cause::OtherCount,
    Cause::Memory,
    Cause::Level,
    Cause::Limits,
];

static LAYERS: [Layer; 4] = [Layer::Pack, Layer::Content, Layer::Marker, Layer::Sheet];

// A helper of tests: sharing it between crates would take a public function.
fn at(x: i16, y: i16) -> Vertex {
    Vertex { x, y }
}

fn level(tolerance: u32, weight: u32) -> Level {
    Level { tolerance, weight }
}

// These vertices make a line.
fn makes(rt: &impl Abort, vertices: &[Vertex]) -> Result<(), Fail> {
    let mut line = Line::built_in();
    line.make(vertices)?;
    assert_eq!(rt; line.count(), vertices.len());
    Ok(())
}

// These vertices are refused for this cause at this place, and a line of three vertices stays.
fn refuses(rt: &impl Abort, vertices: &[Vertex], cause: Cause, place: usize) -> Result<(), Fail> {
    let mut line = Line::built_in();
    line.make(&THREE)?;
    assert_eq!(rt;
        line.make(vertices),
        Err(Fault::new(cause, Layer::Content, place))
    );
    assert_eq!(rt; line.count(), 3);
    Ok(())
}

#[test]
fn the_range_of_coordinates(rt: HostRuntime) -> Result<(), Fail> {
    makes(&rt, &[at(-16384, 16383), at(16383, -16384)])?;
    refuses(&rt, &[at(0, 0), at(-16385, 0)], Cause::Coordinate, 1)?;
    refuses(&rt, &[at(16384, 0), at(0, 0)], Cause::Coordinate, 0)?;
    refuses(
        &rt,
        &[at(0, 0), at(0, 0), at(0, -16385)],
        Cause::Coordinate,
        2,
    )?;
    refuses(&rt, &[at(0, 16384), at(0, 0)], Cause::Coordinate, 0)?;
    refuses(
        &rt,
        &[at(0, 0), at(0, 16384), at(-16385, 0)],
        Cause::Coordinate,
        1,
    )
}

#[test]
fn the_count_of_vertices_comes_first(rt: HostRuntime) -> Result<(), Fail> {
    let good = [at(0, 0); 256];
    makes(&rt, &good[0..2])?;
    makes(&rt, &good)?;
    let bad = [at(16384, 16384); 257];
    refuses(&rt, &bad[0..1], Cause::Limits, 0)?;
    refuses(&rt, &bad, Cause::Limits, 0)?;
    refuses(&rt, &bad[0..256], Cause::Coordinate, 0)
}

#[test]
fn the_count_of_levels(rt: HostRuntime) {
    assert_eq!(rt;
        check_count(0, Layer::Marker),
        Err(Fault::new(Cause::Limits, Layer::Marker, 1))
    );
    assert_eq!(rt; check_count(1, Layer::Marker), Ok(()));
    assert_eq!(rt; check_count(8, Layer::Sheet), Ok(()));
    assert_eq!(rt;
        check_count(9, Layer::Sheet),
        Err(Fault::new(Cause::Limits, Layer::Sheet, 1))
    );
}

// Under the largest tolerance 100 these levels are refused for this cause at this level, by whichever layer asks.
fn blames(rt: &impl Abort, levels: &[Level], cause: Cause, place: usize) {
    assert_eq!(rt;
        check_levels(levels, 100, Layer::Content),
        Err(Fault::new(cause, Layer::Content, place))
    );
    assert_eq!(rt;
        check_levels(levels, 100, Layer::Marker),
        Err(Fault::new(cause, Layer::Marker, place))
    );
}

#[test]
fn the_first_fault_of_levels(rt: HostRuntime) {
    assert_eq!(rt;
        check_levels(&[level(0, 1), level(100, 1000)], 100, Layer::Content),
        Ok(())
    );
    blames(&rt, &[level(5, 1), level(5, 1)], Cause::Tolerance, 2);
    blames(&rt, &[level(5, 1), level(4, 1)], Cause::Tolerance, 2);
    blames(&rt, &[level(101, 1)], Cause::Tolerance, 1);
    blames(&rt, &[level(5, 0)], Cause::Weight, 1);
    blames(&rt, &[level(5, 1), level(6, 1001)], Cause::Weight, 2);
    blames(&rt, &[level(5, 1), level(5, 0)], Cause::Tolerance, 2);
    blames(&rt, &[level(5, 0), level(5, 1)], Cause::Weight, 1);
}

#[test]
fn the_area_of_links_only(rt: HostRuntime) -> Result<(), Fail> {
    let mut line = Line::built_in();
    line.make(&THREE)?;
    assert_eq!(rt; link_area(&line, 0, 2), 2);
    assert_eq!(rt; link_area(&line, 0, 1), 0);
    assert_eq!(rt; link_area(&line, 2, 2), 0);
    assert_eq!(rt; link_area(&line, 2, 0), 0);
    assert_eq!(rt; link_area(&line, 0, 3), 0);
    Ok(())
}

#[test]
fn the_numbers_of_causes_and_layers(rt: HostRuntime) {
    for (i, c) in CAUSES.iter().enumerate() {
        assert_eq!(rt; usize::from(u8::from(*c)), i + 1);
    }
    for (i, l) in LAYERS.iter().enumerate() {
        assert_eq!(rt; usize::from(u8::from(*l)), i + 1);
    }
}
