// The marks and the rows of a family.
ghost use Rattle.std.specs.Prelude.{◌≡◌, IfOk};
ghost use Rattle.pictures.specs.Drawn.{DrawsChains};
ghost use Rattle.pictures.specs.Family.{stay_of, marks_from, row_of_level};

use crate::picture::{Mark, Row};
use lines::level::Level;
use lines::vertex::Vertex;
use std::alloc::{AllocError, Global};

// On how many chains vertex v lies, where the chains stand end to end; `top` if it is on more.
fn stay(chains: &[u16], v: usize, top: usize) -> usize
    ensures { result ≡ stay_of chains.now v top }
{
    let mut count: usize = 0;
    for number in chains {
        if usize::from(*number) == v {
            count += 1;
        }
    }
    count.min(top)
}

// The vertices of a line with their stays in a family whose chains stand end to end. No stay is larger than `top`.
pub fn marks(
    heap: Global,
    vertices: &[Vertex],
    chains: &[u16],
    top: usize,
) -> Result<Vec<Mark>, AllocError>
    ensures value { IfOk result (λ marks. marks.items ≡ marks_from 0 vertices.now chains.now top) }
    ensures draws { IfOk result (λ marks. DrawsChains vertices.now chains.now top marks.items) }
{
    let mut marks = Vec::new(heap);
    for (v, vertex) in vertices.iter().enumerate() {
        marks.push(Mark {
            vertex: *vertex,
            stay: stay(chains, v, top),
        })?;
    }
    Ok(marks)
}

// The row of a level in the legend: it follows that of the line, and `before` others.
pub fn row(before: u8, number: u8, level: Level, chain: usize) -> Row
    ensures { result ≡ row_of_level before number level chain }
{
    Row {
        place: before.saturating_add(1),
        level: number,
        tolerance: level.tolerance,
        links: chain.saturating_sub(1),
        weight: level.weight,
    }
}
