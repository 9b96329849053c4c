use crate::area::Area;
use crate::measure::Measure;
use crate::segment::Segment;
use crate::strip::Strip;
use lines::level::Level;
use lines::line::Line;
use lines::vertex::Vertex;
use std::process::Abort;
use std::test::Fail;

// `at` and `says` stand in the tests of approvals too: no helper of tests is shared between crates without a public function.
fn at(x: i16, y: i16) -> Vertex {
    Vertex { x, y }
}

// The measure gives this answer for the link i → j of these vertices at the tolerance t. A call is a row; a struct would be made in each.
fn says<M: Measure>(
    rt: &impl Abort,
    answer: bool,
    m: &M,
    vertices: &[Vertex],
    i: usize,
    j: usize,
    t: u32,
) -> Result<(), Fail> {
    let mut line = Line::built_in();
    line.make(vertices)?;
    assert!(rt; m.allows(&line, i, j, t) == answer);
    Ok(())
}

// The link 0 → 2 is allowed at the tolerance t and, unless t is 0, not at t - 1.
fn first_at<M: Measure>(rt: &impl Abort, m: &M, vertices: &[Vertex], t: u32) -> Result<(), Fail> {
    says(rt, true, m, vertices, 0, 2, t)?;
    if t == 0 {
        Ok(())
    } else {
        says(rt, false, m, vertices, 0, 2, t - 1)
    }
}

#[test]
fn a_vertex_past_the_end(rt: HostRuntime) -> Result<(), Fail> {
    let vertices = [at(0, 0), at(5, 0), at(3, 0)];
    first_at(&rt, &Segment, &vertices, 2)?;
    first_at(&rt, &Strip, &vertices, 0)
}

#[test]
fn a_vertex_beside_the_link(rt: HostRuntime) -> Result<(), Fail> {
    first_at(&rt, &Segment, &[at(0, 0), at(1, 7), at(8, 6)], 5)
}

#[test]
fn a_link_of_length_zero(rt: HostRuntime) -> Result<(), Fail> {
    let vertices = [at(0, 0), at(3, 4), at(0, 0)];
    first_at(&rt, &Segment, &vertices, 5)?;
    first_at(&rt, &Strip, &vertices, 5)?;
    first_at(&rt, &Area, &vertices, 0)
}

#[test]
fn the_corners_of_the_range(rt: HostRuntime) -> Result<(), Fail> {
    let vertices = [at(-16384, -16384), at(16383, -16384), at(16383, 16383)];
    first_at(&rt, &Segment, &vertices, 23170)?;
    first_at(&rt, &Strip, &vertices, 23170)?;
    first_at(&rt, &Area, &vertices, 1073676289)
}

// The link 0 → 1, which skips nothing, is allowed at the tolerance t and not at t + 1.
fn last_at<M: Measure>(rt: &impl Abort, m: &M, t: u32) -> Result<(), Fail> {
    let vertices = [at(0, 0), at(1, 0)];
    says(rt, true, m, &vertices, 0, 1, t)?;
    says(rt, false, m, &vertices, 0, 1, t.saturating_add(1))
}

#[test]
fn the_largest_tolerances(rt: HostRuntime) -> Result<(), Fail> {
    last_at(&rt, &Segment, 32768)?;
    last_at(&rt, &Strip, 32768)?;
    last_at(&rt, &Area, 2147483647)?;
    let far = [at(-16384, -16384), at(16383, 16383), at(-16384, -16384)];
    says(&rt, false, &Segment, &far, 0, 2, 32768)?;
    says(&rt, false, &Strip, &far, 0, 2, 32768)
}

// The measure says no of pairs that are no link.
fn only_links<M: Measure>(rt: &impl Abort, m: &M) -> Result<(), Fail> {
    let vertices = [at(0, 0), at(0, 0), at(0, 0)];
    says(rt, false, m, &vertices, 1, 1, 9)?;
    says(rt, false, m, &vertices, 2, 1, 9)?;
    says(rt, false, m, &vertices, 1, 3, 9)
}

#[test]
fn no_other_pairs(rt: HostRuntime) -> Result<(), Fail> {
    only_links(&rt, &Segment)?;
    only_links(&rt, &Strip)?;
    only_links(&rt, &Area)
}

fn level(tolerance: u32) -> Level {
    Level {
        tolerance,
        weight: 1,
    }
}

// The grade of a link: its first level, or one more than there are levels, so that the tests expect one number.
fn grade<M: Measure>(m: &M, line: &Line, levels: &[Level], i: usize, j: usize) -> usize {
    m.first_level(line, levels, i, j)
        .unwrap_or(levels.len() + 1)
}

// The grade is what asking level by level gives. Its arguments are those of the question; a struct would serve this one function.
fn grade_is_first<M: Measure>(
    rt: &impl Abort,
    m: &M,
    line: &Line,
    levels: &[Level],
    i: usize,
    j: usize,
) -> Result<(), Fail> {
    let grade = grade(m, line, levels, i, j);
    for (k, level) in levels.iter().enumerate() {
        if m.allows(line, i, j, level.tolerance) {
            assert_eq!(rt; grade, k + 1);
            return Ok(());
        }
    }
    assert_eq!(rt; grade, levels.len() + 1);
    Ok(())
}

// All pairs of a line, and some that are no link, at levels that rise, that do not, and that are too large.
fn grades<M: Measure>(rt: &impl Abort, m: &M) -> Result<(), Fail> {
    let vertices = [at(0, 0), at(4, 9), at(-3, 2), at(8, 1), at(0, 0), at(6, 6)];
    let mut line = Line::built_in();
    line.make(&vertices)?;
    let rising = [
        level(0),
        level(3),
        level(5),
        level(9),
        level(40),
        level(200),
    ];
    let mixed = [
        level(5),
        level(4000000000),
        level(2),
        level(200),
        level(32769),
    ];
    for i in 0..7 {
        for j in 0..7 {
            grade_is_first(rt, m, &line, &rising, i, j)?;
            grade_is_first(rt, m, &line, &mixed, i, j)?;
            grade_is_first(rt, m, &line, &mixed[1..2], i, j)?;
            grade_is_first(rt, m, &line, &[], i, j)?;
        }
    }
    Ok(())
}

#[test]
fn grades_as_level_by_level(rt: HostRuntime) -> Result<(), Fail> {
    grades(&rt, &Segment)?;
    grades(&rt, &Strip)?;
    grades(&rt, &Area)
}

#[test]
fn the_grade_of_a_link(rt: HostRuntime) -> Result<(), Fail> {
    let mut line = Line::built_in();
    let vertices = [at(0, 0), at(5, 0), at(3, 0)];
    line.make(&vertices)?;
    let levels = [level(1), level(2), level(40000)];
    assert_eq!(rt; grade(&Segment, &line, &levels, 0, 2), 2);
    assert_eq!(rt; grade(&Strip, &line, &levels, 0, 2), 1);
    assert_eq!(rt; grade(&Segment, &line, &levels[2..3], 0, 2), 2);
    assert_eq!(rt; grade(&Segment, &line, &levels, 2, 0), 4);
    Ok(())
}
