use crate::approvals::Approvals;
use lines::fault::{Cause, Fault, Layer};
use lines::line::Line;
use lines::vertex::Vertex;
use measures::measure::Measure;
use std::process::Abort;
use std::test::Fail;

// `at` and `says` as in the tests of measures: no helper of tests is shared between crates without a public function.
fn at(x: i16, y: i16) -> Vertex {
    Vertex { x, y }
}

// The measure gives this answer for the link i → j of these vertices at the tolerance t. A call is a row; a struct would be made in each.
fn says<M: Measure>(
    rt: &impl Abort,
    answer: bool,
    m: &M,
    vertices: &[Vertex],
    i: usize,
    j: usize,
    t: u32,
) -> Result<(), Fail> {
    let mut line = Line::built_in();
    line.make(vertices)?;
    assert!(rt; m.allows(&line, i, j, t) == answer);
    Ok(())
}

#[test]
fn approvals_speak_from_their_tolerance_on(rt: HostRuntime) -> Result<(), Fail> {
    let mut approvals = Approvals::new();
    let vertices = [at(0, 0), at(1, 1), at(2, 2), at(3, 3)];
    says(&rt, true, &approvals, &vertices, 0, 1, 32768)?;
    says(&rt, false, &approvals, &vertices, 0, 1, 32769)?;
    says(&rt, false, &approvals, &vertices, 1, 1, 9)?;
    says(&rt, false, &approvals, &vertices, 3, 4, 9)?;
    says(&rt, false, &approvals, &vertices, 0, 2, 32768)?;
    approvals.approve(0, 2, 7)?;
    approvals.approve(0, 2, 7)?;
    approvals.approve(3, 1, 0)?;
    says(&rt, false, &approvals, &vertices, 0, 2, 6)?;
    says(&rt, true, &approvals, &vertices, 0, 2, 7)?;
    says(&rt, false, &approvals, &vertices, 0, 2, 32769)?;
    says(&rt, false, &approvals, &vertices, 1, 3, 32768)?;
    says(&rt, false, &approvals, &vertices, 3, 1, 7)
}

#[test]
fn at_most_64_approvals(rt: HostRuntime) -> Result<(), Fail> {
    let mut approvals = Approvals::new();
    for _ in 0..63 {
        approvals.approve(0, 2, 9)?;
    }
    approvals.approve(1, 3, 4)?;
    assert_eq!(rt;
        approvals.approve(0, 3, 0),
        Err(Fault::new(Cause::Full, Layer::Content, 0))
    );
    let vertices = [at(0, 0), at(1, 1), at(2, 2), at(3, 3)];
    says(&rt, true, &approvals, &vertices, 1, 3, 4)?;
    says(&rt, false, &approvals, &vertices, 0, 3, 32768)
}
