// The whole path from the bytes of a family pack to its verdict.
ghost use Rattle.std.specs.Prelude.{◌≡◌, ◌≤◌};
ghost use Rattle.packs.specs.Kind.{measure_largest};
ghost use Rattle.marker.specs.Pack.{measure_says, form_marked, place_marked, pack_marked, MarksPacks};

use crate::mark::mark;
use lines::fault::Fault;
use lines::level::Level;
use lines::line::Line;
use measures::area::Area;
use measures::measure::Measure;
use measures::segment::Segment;
use measures::strip::Strip;
use packs::job::Job;
use packs::kind::{MeasureKind, PriceKind};
use packs::place::Place;
use packs::reader::read_family_head;
use prices::count::Count;
use prices::count_then_area::CountThenArea;
use prices::price::Price;

// Marks under the price with its number; the answer is the form of the total.
// A `match` turns the number into a type: no `dyn Price` can be, for its functions take no `self` and answer `Self`.
// No struct of line, levels and records, here and in `mark_numbered`: it would serve this one private function.
fn mark_priced<M: Measure>(
    measure: &M,
    price: PriceKind,
    line: &Line,
    levels: &[Level],
    records: &[u8],
) -> Result<(u32, u64), Fault>
    ensures { result ≡ form_marked price M.Measure.LARGEST (M.Measure.says measure.now) line.now.vertices.now levels.now records.now }
{
    match price {
        PriceKind::Count => Ok(mark::<M, Count>(measure, line, levels, records)?.form()),
        PriceKind::CountThenArea => {
            Ok(mark::<M, CountThenArea>(measure, line, levels, records)?.form())
        }
    }
}

// Marks under the measure and the price with their numbers.
// A `match` here too: no `dyn Measure` can be, for it has a constant. A trait for what is done under a measure and a price
// was tried: it takes 78 lines in packs, saves one here and next to none in drawings.
pub fn mark_numbered(
    measure: MeasureKind,
    price: PriceKind,
    line: &Line,
    levels: &[Level],
    records: &[u8],
) -> Result<(u32, u64), Fault>
    ensures { result ≡ form_marked price (measure_largest measure) (measure_says measure) line.now.vertices.now levels.now records.now }
{
    match measure {
        MeasureKind::Segment => mark_priced(&Segment, price, line, levels, records),
        MeasureKind::Strip => mark_priced(&Strip, price, line, levels, records),
        MeasureKind::Area => mark_priced(&Area, price, line, levels, records),
    }
}

// Marks the records of a job that was read into a place.
fn mark_job(place: &Place, job: Job, records: &[u8]) -> Result<(u32, u64), Fault>
    requires { (job.vertices ≤ 256) × (job.levels ≤ 8) }
    ensures { result ≡ place_marked place.now.vertices place.now.levels job records.now }
{
    let n = job.vertices;
    let m = job.levels;
    let mut line = Line::built_in();
    line.make(&place.vertices[0..n])?;
    mark_numbered(job.measure, job.price, &line, &place.levels[0..m], records)
}

// Marks a family pack: answers the form of its total, or the first fault.
#[tactic(auto, using(crate::proofs::Packs::marks_packs))]
pub fn mark_pack(bytes: &[u8]) -> Result<(u32, u64), Fault>
    ensures answer { result ≡ pack_marked bytes.now }
    ensures valid_exactly_for_true_families { MarksPacks bytes.now }
{
    let mut place = Place::blank();
    let (job, end) = read_family_head(bytes, &mut place)?;
    mark_job(&place, job, &bytes[end..])
}
