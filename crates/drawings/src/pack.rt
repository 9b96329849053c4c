// The whole path from the bytes of a job pack to its drawing.
ghost use Rattle.std.specs.Prelude.{◌≤◌, take};
ghost use Rattle.lines.specs.Line.{Lawful};
ghost use Rattle.packs.specs.Kind.{measure_largest};
ghost use Rattle.marker.specs.Pack.{measure_says};
ghost use Rattle.drawings.specs.Pack.{Shows, ShowsPriced, Drawable, Made, Draws};

use crate::drawing::{DrawError, Drawing};
use crate::memory::filled;
use lines::level::Level;
use lines::line::Line;
use measures::area::Area;
use measures::measure::Measure;
use measures::segment::Segment;
use measures::strip::Strip;
use packs::job::Job;
use packs::kind::{MeasureKind, PriceKind};
use packs::place::Place;
use packs::reader::read_job;
use prices::count::Count;
use prices::count_then_area::CountThenArea;
use prices::price::Price;
use search::least::find_least;
use search::room::Room;
use std::alloc::Global;

// A line and its levels, which are drawn in memory of a heap.
#[derive(Clone, Copy)]
struct Sketch<'a> {
    heap: Global,
    line: Line<'a>,
    levels: &'a [Level],
}

// A measure is known to each call alone, and so is whether the levels are lawful under it.
impl Sketch<'_> {
    // Draws under a measure and a kind of price.
    fn draw<M: Measure, P: Price>(&self, measure: &M) -> Result<Drawing, DrawError>
        requires { Drawable M.Measure.LARGEST self.now.levels.now }
        ensures { Made (Shows P.Price.kind P.Price.link (M.Measure.says measure.now) self.now.line.vertices.now self.now.levels.now) result }
    {
        let mut grades = filled(self.heap, Room::FULL.grades, 0u8)?;
        let mut prices = filled(self.heap, Room::FULL.prices, P::neutral())?;
        let mut stays = filled(self.heap, Room::FULL.stays, 0u8)?;
        let total = find_least(
            measure,
            &self.line,
            self.levels,
            grades.as_mut_slice(),
            prices.as_mut_slice(),
            stays.as_mut_slice(),
        )?;
        stays.truncate(self.line.count());
        Ok(Drawing {
            levels: self.levels.len(),
            stays,
            form: P::form(total),
        })
    }

    // Draws under a measure and the price with its number. A price is a type, so its number is matched; no `dyn` can stand for it.
    fn draw_priced<M: Measure>(&self, measure: &M, price: PriceKind) -> Result<Drawing, DrawError>
        requires { Drawable M.Measure.LARGEST self.now.levels.now }
        ensures { Made (ShowsPriced price (M.Measure.says measure.now) self.now.line.vertices.now self.now.levels.now) result }
    {
        match price {
            PriceKind::Count => self.draw::<M, Count>(measure),
            PriceKind::CountThenArea => self.draw::<M, CountThenArea>(measure),
        }
    }

    // Draws under the measure and the price with their numbers. A measure has a constant, so no `dyn` can stand for it either.
    fn draw_numbered(&self, measure: MeasureKind, price: PriceKind) -> Result<Drawing, DrawError>
        requires { Drawable (measure_largest measure) self.now.levels.now }
        ensures { Made (ShowsPriced price (measure_says measure) self.now.line.vertices.now self.now.levels.now) result }
    {
        match measure {
            MeasureKind::Segment => self.draw_priced(&Segment, price),
            MeasureKind::Strip => self.draw_priced(&Strip, price),
            MeasureKind::Area => self.draw_priced(&Area, price),
        }
    }
}

// Draws a lawful job that lies in a place.
fn draw_job(heap: Global, place: &Place, job: Job) -> Result<Drawing, DrawError>
    requires few { (job.vertices ≤ 256) × (job.levels ≤ 8) }
    requires line { Lawful (take job.vertices place.now.vertices) }
    requires levels { Drawable (measure_largest job.measure) (take job.levels place.now.levels) }
    ensures { Made (ShowsPriced job.price (measure_says job.measure) (take job.vertices place.now.vertices) (take job.levels place.now.levels)) result }
{
    let n = job.vertices;
    let m = job.levels;
    let mut line = Line::built_in();
    line.make(&place.vertices[0..n])?;
    let sketch = Sketch {
        heap,
        line,
        levels: &place.levels[0..m],
    };
    sketch.draw_numbered(job.measure, job.price)
}

// Draws the job of a pack, or answers the reader's fault, or that memory ran out.
pub fn draw_pack(heap: Global, bytes: &[u8]) -> Result<Drawing, DrawError>
    ensures { Draws bytes.now result }
{
    let mut place = Place::blank();
    let job = read_job(bytes, &mut place)?;
    draw_job(heap, &place, job)
}
