// One chain under its measure, level and price.
ghost use Rattle.std.specs.Prelude.{◌≡◌, ℕ, ◌+◌};
ghost use Rattle.families.specs.Chain.{links};
ghost use Rattle.families.specs.Family.{cost};
ghost use Rattle.marker.specs.Judge.{forbidden, none_or};
ghost use Rattle.marker.specs.Chain.{numbers_of};

use crate::chain::{Chain, number};
use lines::fault::{Cause, Fault, Layer};
use lines::level::Level;
use lines::line::Line;
use measures::measure::Measure;
use prices::price::Price;

// No position is at fault in the chain of level k, or the one found is named.
// The fault is a literal, for it has a spot: `Fault::new` gives spot 0.
pub(crate) fn none_or(found: Option<usize>, cause: Cause, k: usize) -> Result<(), Fault>
    ensures { result ≡ none_or found cause k }
{
    match found {
        None => Ok(()),
        Some(spot) => Err(Fault {
            cause,
            layer: Layer::Marker,
            place: k,
            spot,
        }),
    }
}

// The first position whose link is not allowed at the tolerance t.
pub(crate) fn first_forbidden<M: Measure>(
    measure: &M,
    line: &Line,
    chain: Chain,
    t: u32,
) -> Option<usize>
    ensures { result ≡ forbidden (λ i j. M.Measure.says measure.now line.now.vertices.now i j t) (numbers_of chain.entry) }
{
    let from = chain.numbers.iter().map(number);
    let to = chain.numbers.iter().skip(1).map(number);
    from.zip(to)
        .position(|(i, j)| !measure.allows(line, i, j, t))
}

// The prices of the chain's links at a weight, joined.
pub(crate) fn chain_cost<P: Price>(line: &Line, chain: Chain, weight: u32) -> P
    ensures { result ≡ cost P.Price.kind (λ _ i j. P.Price.link line.now.vertices.now i j weight) 0 (links (numbers_of chain.entry)) }
{
    let mut sum = P::neutral();
    for link in chain.numbers.windows(2).rev() {
        sum = P::of_link(line, number(&link[0]), number(&link[1]), weight).join(sum);
    }
    sum
}
