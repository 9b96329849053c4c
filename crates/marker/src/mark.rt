// Marking a family: the bytes of its chain and total records, a checked line, levels, a measure and a kind of price.
ghost use Rattle.std.specs.Prelude.{◌≡◌, ℕ, length};
ghost use Rattle.families.specs.Family.{total};
ghost use Rattle.prices.specs.Price.{price_by};
ghost use Rattle.marker.specs.Records.{chains_in, chain_of};
ghost use Rattle.marker.specs.Judge.{judged_chains};
ghost use Rattle.marker.specs.Marker.{marked, MarksFamilies};

use crate::level::{chain_cost, first_forbidden, none_or};
use crate::records::{Chains, claimed, structure};
use lines::fault::{Cause, Fault, Layer};
use lines::level::{Level, check_count, check_levels};
use lines::line::Line;
use measures::measure::Measure;
use prices::price::Price;

// The chains of a line, one for each level.
#[derive(Clone, Copy)]
struct Family<'line, 'levels, 'records> {
    line: Line<'line>,
    levels: &'levels [Level],
    chains: Chains<'records>,
    ghost one_each: { chains.left ≡ length levels.now },
}

impl<'line, 'levels, 'records> Family<'line, 'levels, 'records> {
    // Judges the chains level by level: order, then nesting, then links.
    // The finest has no finer one: it is held against itself.
    fn judge<M: Measure>(&self, measure: &M) -> Result<(), Fault>
        ensures { result ≡ judged_chains (λ t i j. M.Measure.says measure.now self.now.line.vertices.now i j t) (length self.now.line.vertices.now) (chains_in self.now.chains.left self.now.chains.rest.now) self.now.levels.now }
    {
        let mut finer = None;
        for (i, (chain, level)) in self.chains.zip(self.levels).enumerate() {
            let k = i + 1;
            none_or(chain.first_disorder(self.line.count()), Cause::Order, k)?;
            none_or(
                chain.first_missing(finer.unwrap_or(chain)),
                Cause::Nesting,
                k,
            )?;
            none_or(
                first_forbidden(measure, &self.line, chain, level.tolerance),
                Cause::Link,
                k,
            )?;
            finer = Some(chain);
        }
        Ok(())
    }

    // The total of the chains: the prices of all links, joined.
    fn total<P: Price>(&self) -> P
        ensures { result ≡ total P.Price.kind (price_by P.Price.link self.now.line.vertices.now self.now.levels.now) (length self.now.levels.now) (chain_of (chains_in self.now.chains.left self.now.chains.rest.now)) }
    {
        let mut sum = P::neutral();
        for (chain, level) in self.chains.zip(self.levels) {
            sum = chain_cost::<P>(&self.line, chain, level.weight).join(sum);
        }
        sum
    }
}

// Marks a family: answers its total, or the first fault.
#[tactic(auto, using(crate::proofs::Marking::marks_families))]
pub fn mark<M: Measure, P: Price>(
    measure: &M,
    line: &Line,
    levels: &[Level],
    records: &[u8],
) -> Result<P, Fault>
    ensures answer { result ≡ marked P.Price.kind P.Price.link M.Measure.LARGEST (M.Measure.says measure.now) line.now.vertices.now levels.now records.now }
    ensures accepts_exactly_families { MarksFamilies P.Price.kind P.Price.link M.Measure.LARGEST (M.Measure.says measure.now) line.now.vertices.now levels.now records.now }
{
    check_count(levels.len(), Layer::Marker)?;
    check_levels(levels, M::LARGEST, Layer::Marker)?;
    let stop = structure(records, line.count(), levels.len())?;
    let family = Family {
        line: *line,
        levels,
        chains: Chains {
            rest: records,
            left: levels.len(),
        },
    };
    family.judge(measure)?;
    let total = family.total::<P>();
    if total.form() != claimed(records, stop) {
        return Err(Fault::new(Cause::Total, Layer::Marker, 0));
    }
    Ok(total)
}
