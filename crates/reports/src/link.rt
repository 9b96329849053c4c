// A link: how long it is, and at which tolerance it is first allowed.
ghost use Rattle.std.specs.Prelude.{◌≡◌, T, Some, IfOk};
ghost use Rattle.families.specs.Chain.{links};
ghost use Rattle.families.specs.Family.{cost};
ghost use Rattle.reports.specs.Link.{squared_length, IsLength, longest_square, LeastPassing, allows_all};

use lines::line::Line;
use measures::measure::Measure;
use prices::price::Price;
use std::alloc::{AllocError, Global};

// The squared length of a link; 0 for a pair that is no link.
fn squared_length(line: &Line, i: usize, j: usize) -> u64
    ensures { result ≡ squared_length line.now.vertices.now i j }
{
    if !line.is_link(i, j) {
        return 0;
    }
    let (start, end) = (line.vertices()[i], line.vertices()[j]);
    let width = u64::from(start.x.abs_diff(end.x));
    let height = u64::from(start.y.abs_diff(end.y));
    width * width + height * height
}

// The length of a link, rounded down; 0 for a pair that is no link.
pub fn length_down(line: &Line, i: usize, j: usize) -> u64
    ensures { IsLength (squared_length line.now.vertices.now i j) result }
{
    squared_length(line, i, j).isqrt()
}

// The least tolerance at which a link is allowed; none where it is allowed at no tolerance.
pub fn least_tolerance<M: Measure>(measure: &M, line: &Line, i: usize, j: usize) -> Option<u32>
    ensures { LeastPassing (M.Measure.says measure.now line.now.vertices.now i j) result }
{
    if !measure.allows(line, i, j, M::LARGEST) {
        return None;
    }
    Some(least_within(measure, line, &[(i, j)], M::LARGEST))
}

// Whether all of these links are allowed at the tolerance t.
fn allows_all<M: Measure>(measure: &M, line: &Line, links: &[(usize, usize)], t: u32) -> bool
    ensures { result ≡ allows_all (M.Measure.says measure.now) line.now.vertices.now links.now t }
{
    links.iter().all(|l| measure.allows(line, l.0, l.1, t))
}

// The least tolerance at which all of these links are allowed, by halving; they are at `high`.
pub(crate) fn least_within<M: Measure>(
    measure: &M,
    line: &Line,
    links: &[(usize, usize)],
    high: u32,
) -> u32
    requires { T (allows_all (M.Measure.says measure.now) line.now.vertices.now links.now high) }
    ensures { LeastPassing (allows_all (M.Measure.says measure.now) line.now.vertices.now links.now) (Some result) }
{
    let mut low = 0;
    let mut least = high;
    while low < least {
        let middle = low + (least - low) / 2;
        if allows_all(measure, line, links, middle) {
            least = middle;
        } else {
            low = middle + 1;
        }
    }
    least
}

// The length of the longest of these links, rounded down.
pub(crate) fn longest(line: &Line, links: &[(usize, usize)]) -> u64
    ensures { IsLength (longest_square line.now.vertices.now links.now) result }
{
    links
        .iter()
        .fold(0u64, |square, l| square.max(squared_length(line, l.0, l.1)))
        .isqrt()
}

// The prices of these links at a weight, joined.
pub(crate) fn cost<P: Price>(line: &Line, links: &[(usize, usize)], weight: u32) -> P
    ensures { result ≡ cost P.Price.kind (λ _ i j. P.Price.link line.now.vertices.now i j weight) 0 links.now }
{
    links.iter().rev().fold(
        P::neutral(),
        |sum, l| P::of_link(line, l.0, l.1, weight).join(sum),
    )
}

// The links of a chain.
pub(crate) fn links_of(heap: Global, chain: &[u16]) -> Result<Vec<(usize, usize)>, AllocError>
    ensures { IfOk result (λ found. found.items ≡ links chain.now) }
{
    let mut found = Vec::new(heap);
    let Some((first, rest)) = chain.split_first() else {
        return Ok(found);
    };
    let mut start = usize::from(*first);
    for v in rest {
        let end = usize::from(*v);
        found.push((start, end))?;
        start = end;
    }
    Ok(found)
}
