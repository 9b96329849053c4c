// The whole path from the bytes of a family pack to its report.
ghost use Rattle.std.specs.Prelude.{◌≤◌, take};
ghost use Rattle.lines.specs.Line.{Lawful};
ghost use Rattle.packs.specs.Kind.{measure_largest};
ghost use Rattle.marker.specs.Pack.{measure_says};
ghost use Rattle.writer.specs.Family.{chains_of};
ghost use Rattle.reports.specs.Family.{EndToEnd};
ghost use Rattle.reports.specs.Report.{Reports};
ghost use Rattle.reports.specs.Row.{TellsPriced};
ghost use Rattle.drawings.specs.Pack.{Made};

use crate::family::Family;
use crate::row::Row;
use drawings::drawing::DrawError;
use lines::line::Line;
use packs::job::Job;
use packs::place::Place;
use std::alloc::Global;
use valid::family::read_valid;

// A row for each level of a family, level 1 first, and the form of its total.
#[derive(Drop)]
pub struct Report {
    pub rows: Vec<Row>,
    pub total: (u32, u64),
}

// The rows of a family whose job lies in a place.
fn rows_of(
    heap: Global,
    place: &Place,
    job: Job,
    numbers: &[u16],
    counts: &[usize],
) -> Result<Vec<Row>, DrawError>
    requires few { (job.vertices ≤ 256) × (job.levels ≤ 8) }
    requires line { Lawful (take job.vertices place.now.vertices) }
    requires family { EndToEnd (measure_largest job.measure) (measure_says job.measure) (take job.vertices place.now.vertices) (take job.levels place.now.levels) counts.now numbers.now }
    ensures { Made (λ rows. TellsPriced job.price (measure_says job.measure) (take job.vertices place.now.vertices) (take job.levels place.now.levels) (chains_of counts.now numbers.now) rows.items) result }
{
    let mut line = Line::built_in();
    line.make(&place.vertices[0..job.vertices])?;
    let family = Family {
        heap,
        line,
        levels: &place.levels[0..job.levels],
        numbers,
        counts,
    };
    family.rows_numbered(job.measure, job.price)
}

// Reports of a family pack, or answers the marker's fault, or that memory ran out.
pub fn report_pack(heap: Global, bytes: &[u8]) -> Result<Report, DrawError>
    ensures { Reports bytes.now result }
{
    let family = read_valid(bytes)?;
    let rows = rows_of(
        heap,
        &family.place,
        family.job,
        &family.chains.numbers[0..family.vertices],
        &family.chains.counts[0..family.job.levels],
    )?;
    Ok(Report {
        rows,
        total: family.total,
    })
}
