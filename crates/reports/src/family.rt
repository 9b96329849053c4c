// The rows of a family.
ghost use Rattle.std.specs.Prelude.{◌≡◌, ◌<◌, ◌≤◌, ◌^◌, [], ◌∷◌, ◌++◌, length, sum, IfOk, slice_index_or};
ghost use Rattle.packs.specs.Kind.{measure_largest};
ghost use Rattle.marker.specs.Pack.{measure_says};
ghost use Rattle.writer.specs.Family.{chains_of};
ghost use Rattle.reports.specs.Family.{EndToEnd};
ghost use Rattle.reports.specs.Row.{TellsAll, TellsPriced};
ghost use Rattle.drawings.specs.Pack.{Made};

use crate::row::{Row, row_of};
use drawings::drawing::DrawError;
use lines::level::Level;
use lines::line::Line;
use measures::area::Area;
use measures::measure::Measure;
use measures::segment::Segment;
use measures::strip::Strip;
use packs::kind::{MeasureKind, PriceKind};
use prices::count::Count;
use prices::count_then_area::CountThenArea;
use prices::price::Price;
use std::alloc::{AllocError, Global};

// How many vertices chains have together.
fn total(counts: &[usize]) -> usize
    requires { sum counts.now < 2 ^ 64 }
    ensures { result ≡ sum counts.now }
{
    counts.iter().sum()
}

// A family that lies in memory: its chains end to end, and how many vertices each has.
#[derive(Clone, Copy)]
pub(crate) struct Family<'a> {
    pub(crate) heap: Global,
    pub(crate) line: Line<'a>,
    pub(crate) levels: &'a [Level],
    pub(crate) numbers: &'a [u16],
    pub(crate) counts: &'a [usize],
}

// A measure is known to each call alone, and so is whether this is a family under it.
impl<'a> Family<'a> {
    // The chain at a place, counted from 0.
    #[tactic(auto, using(crate::proofs::Chains::within))]
    fn chain(&self, i: usize) -> &'a [u16]
        requires place { i < length self.now.counts.now }
        requires inside { sum self.now.counts.now ≤ length self.now.numbers.now }
        ensures { result.now ≡ slice_index_or (chains_of self.now.counts.now self.now.numbers.now) i [] }
    {
        let start = total(&self.counts[..i]);
        &self.numbers[start..start + self.counts[i]]
    }

    // The rows of all levels.
    fn rows<M: Measure, P: Price>(&self, measure: &M) -> Result<Vec<Row>, DrawError>
        requires { EndToEnd M.Measure.LARGEST (M.Measure.says measure.now) self.now.line.vertices.now self.now.levels.now self.now.counts.now self.now.numbers.now }
        ensures { Made (λ rows. TellsAll P.Price.kind P.Price.link (M.Measure.says measure.now) self.now.line.vertices.now self.now.levels.now (chains_of self.now.counts.now self.now.numbers.now) rows.items) result }
    {
        let mut rows = Vec::new(self.heap);
        for (i, level) in self.levels.iter().enumerate() {
            let row = row_of::<M, P>(self.heap, measure, &self.line, i + 1, *level, self.chain(i))?;
            rows.push(row).map_err(AllocError::from)?;
        }
        Ok(rows)
    }

    // The rows under the price with its number, which a `match` turns into a type.
    fn rows_priced<M: Measure>(&self, measure: &M, price: PriceKind) -> Result<Vec<Row>, DrawError>
        requires { EndToEnd M.Measure.LARGEST (M.Measure.says measure.now) self.now.line.vertices.now self.now.levels.now self.now.counts.now self.now.numbers.now }
        ensures { Made (λ rows. TellsPriced price (M.Measure.says measure.now) self.now.line.vertices.now self.now.levels.now (chains_of self.now.counts.now self.now.numbers.now) rows.items) result }
    {
        match price {
            PriceKind::Count => self.rows::<M, Count>(measure),
            PriceKind::CountThenArea => self.rows::<M, CountThenArea>(measure),
        }
    }

    // The rows under the measure and the price with their numbers.
    pub(crate) fn rows_numbered(
        &self,
        measure: MeasureKind,
        price: PriceKind,
    ) -> Result<Vec<Row>, DrawError>
        requires { EndToEnd (measure_largest measure) (measure_says measure) self.now.line.vertices.now self.now.levels.now self.now.counts.now self.now.numbers.now }
        ensures { Made (λ rows. TellsPriced price (measure_says measure) self.now.line.vertices.now self.now.levels.now (chains_of self.now.counts.now self.now.numbers.now) rows.items) result }
    {
        match measure {
            MeasureKind::Segment => self.rows_priced(&Segment, price),
            MeasureKind::Strip => self.rows_priced(&Strip, price),
            MeasureKind::Area => self.rows_priced(&Area, price),
        }
    }
}
