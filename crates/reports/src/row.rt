// The row of a level.
ghost use Rattle.std.specs.Prelude.{◌≡◌, [], ◌∷◌, T};
ghost use Rattle.families.specs.Chain.{links};
ghost use Rattle.lines.specs.Level.{LawfulLevels};
ghost use Rattle.reports.specs.Link.{allows_all};
ghost use Rattle.reports.specs.Row.{least_alone, Tells};
ghost use Rattle.drawings.specs.Pack.{Made};

use crate::link::{cost, least_within, links_of, longest};
use crate::share::share;
use drawings::drawing::DrawError;
use drawings::memory::filled;
use lines::level::Level;
use lines::line::Line;
use measures::measure::Measure;
use prices::price::Price;
use search::least::find_least;
use std::alloc::Global;

// What a level of a family keeps, and what it costs. The share is per mille, the length of the longest link is rounded down, and enough is the
// least tolerance at which all links are allowed. The price is the form of what the links cost; alone is that of the least total of this level alone.
#[derive(Clone, Copy, PartialEq, Eq, Debug)]
pub struct Row {
    pub level: usize,
    pub tolerance: u32,
    pub weight: u32,
    pub links: usize,
    pub kept: usize,
    pub share: usize,
    pub longest: u64,
    pub enough: u32,
    pub price: (u32, u64),
    pub alone: (u32, u64),
}

// The least total of a level alone.
fn least_alone<M: Measure, P: Price>(
    heap: Global,
    measure: &M,
    line: &Line,
    level: Level,
) -> Result<P, DrawError>
    requires { LawfulLevels M.Measure.LARGEST (level ∷ []) }
    ensures { Made (λ sum. sum ≡ least_alone P.Price.kind P.Price.link (M.Measure.says measure.now) line.now.vertices.now level) result }
{
    let n = line.count();
    let mut grades = filled(heap, n * n, 0u8)?;
    let mut prices = filled(heap, n * n, P::neutral())?;
    let mut stays = filled(heap, n, 0u8)?;
    let total = find_least(
        measure,
        line,
        &[level],
        grades.as_mut_slice(),
        prices.as_mut_slice(),
        stays.as_mut_slice(),
    )?;
    Ok(total)
}

// The row of level k, under which the line has this chain.
pub(crate) fn row_of<M: Measure, P: Price>(
    heap: Global,
    measure: &M,
    line: &Line,
    k: usize,
    level: Level,
    chain: &[u16],
) -> Result<Row, DrawError>
    requires lawful { LawfulLevels M.Measure.LARGEST (level ∷ []) }
    requires allowed { T (allows_all (M.Measure.says measure.now) line.now.vertices.now (links chain.now) level.tolerance) }
    ensures { Made (Tells P.Price.kind P.Price.link (M.Measure.says measure.now) line.now.vertices.now k level chain.now) result }
{
    let found = links_of(heap, chain)?;
    let links = found.as_slice();
    let alone = least_alone::<M, P>(heap, measure, line, level)?;
    Ok(Row {
        level: k,
        tolerance: level.tolerance,
        weight: level.weight,
        links: links.len(),
        kept: chain.len(),
        share: share(chain.len(), line.count()),
        longest: longest(line, links),
        enough: least_within(measure, line, links, level.tolerance),
        price: cost::<P>(line, links, level.weight).form(),
        alone: alone.form(),
    })
}
