// Plausible methods that do not find the least family, on the worked example of seven vertices: one level after another.
use crate::memory::{Noise, at, level, search};
use approvals::approvals::Approvals;
use layers::pins::Pins;
use lines::fault::Fault;
use lines::level::Level;
use lines::line::Line;
use measures::measure::Measure;
use prices::count::Count;
use std::test::Fail;

// The approved links, each with the tolerance from which on it is allowed.
const LINKS: [(usize, usize, u32); 3] = [(1, 5, 1), (0, 3, 2), (3, 6, 2)];

fn approvals() -> Result<Approvals, Fault> {
    let mut approvals = Approvals::new();
    for (i, j, t) in LINKS {
        approvals.approve(i, j, t)?;
    }
    Ok(approvals)
}

// What the cheapest chain of one level alone costs on n vertices, and which vertices it has: those of stay 1.
fn alone<M: Measure>(measure: &M, n: usize, level: Level) -> Result<(u32, [u8; 8]), Fault> {
    let vertices = [at(0, 0); 7];
    let mut line = Line::built_in();
    line.make(vertices.get(..n).unwrap_or(&vertices))?;
    let mut prices = [Count { count: 0 }; 64];
    let noise = Noise { byte: 0, weight: 0 };
    let found = search::<M, Count>(measure, &line, &[level], noise, &mut prices);
    Ok((found.total?.count, found.stays))
}

// Each level alone: its chains need not be nested.
fn each_alone(fine: Level, coarse: Level) -> Result<u32, Fault> {
    let approvals = approvals()?;
    let (cost, _) = alone(&approvals, 7, fine)?;
    let (more, _) = alone(&approvals, 7, coarse)?;
    Ok(cost.saturating_add(more))
}

// Coarsest first: the fine chain must have the vertices of the coarse one.
fn coarsest_first<M: Measure + Drop>(
    layer: Result<Pins<M>, Fault>,
    fine: Level,
    coarse: Level,
) -> Result<u32, Fault> {
    let mut pins = layer?;
    let (cost, stays) = alone(&pins, 7, coarse)?;
    for (v, stay) in stays.iter().enumerate().take(6).skip(1) {
        if *stay == 1 {
            pins.pin(v)?;
        }
    }
    let (more, _) = alone(&pins, 7, fine)?;
    Ok(cost.saturating_add(more))
}

// The number of a vertex among those that stay.
fn number(stays: &[u8; 8], v: usize) -> usize {
    stays.iter().take(v).filter(|stay| **stay == 1).count()
}

// Finest first: the coarse chain is chosen among the vertices of the fine one, which are numbered anew.
fn finest_first(fine: Level, coarse: Level) -> Result<u32, Fault> {
    let (cost, stays) = alone(&approvals()?, 7, fine)?;
    let stays_on = |v: usize| stays.get(v) == Some(&1);
    let mut among = Approvals::new();
    for (i, j, t) in LINKS {
        if stays_on(i) && stays_on(j) {
            among.approve(number(&stays, i), number(&stays, j), t)?;
        }
    }
    let (more, _) = alone(&among, number(&stays, 7), coarse)?;
    Ok(cost.saturating_add(more))
}

#[test]
fn one_level_after_another(rt: HostRuntime) -> Result<(), Fail> {
    let fine = level(1, 1);
    // The least family costs 6.
    let coarse = level(2, 1);
    assert_eq!(&rt; each_alone(fine, coarse), Ok(5));
    assert_eq!(&rt;
        coarsest_first(Pins::over(approvals()?, 7), fine, coarse),
        Ok(8)
    );
    // With the coarse level at ten times the weight it costs 26.
    assert_eq!(&rt; finest_first(fine, level(2, 10)), Ok(33));
    Ok(())
}
