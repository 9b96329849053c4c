// Writing the pack of a job.
ghost use Rattle.std.specs.Prelude.{◌≡◌, ℕ, ◌≤◌, Decides, List, length, take, is_ok, IfOk};
ghost use Rattle.packs.specs.Bytes.{Octets};
ghost use Rattle.writer.specs.Job.{judged_job, job_pack, size_answered, bytes_after, job_size, WritableJob, ReadAsJob, Writes};

use crate::put::put_job;
use lines::fault::{Cause, Fault, Layer};
use lines::level::{Level, check_count, check_levels};
use lines::line::Line;
use packs::kind::{MeasureKind, PriceKind};

// Judges the numbers of a measure and a price, and levels: the measure and the price with these numbers, or the first fault.
pub(crate) fn check_job(
    measure: u8,
    price: u8,
    levels: &[Level],
) -> Result<(MeasureKind, PriceKind), Fault>
    ensures { result ≡ judged_job measure price levels.now }
{
    check_count(levels.len(), Layer::Pack)?;
    let Ok(measure) = MeasureKind::try_from(measure) else {
        return Err(Fault::new(Cause::Unknown, Layer::Pack, 0));
    };
    let Ok(price) = PriceKind::try_from(price) else {
        return Err(Fault::new(Cause::Unknown, Layer::Pack, 1));
    };
    check_levels(levels, measure.largest(), Layer::Pack)?;
    Ok((measure, price))
}

// Writes the pack of a job into lent bytes, and answers how many it takes; or refuses and writes nothing. Bytes past these keep their contents.
pub fn write_job(
    measure: u8,
    price: u8,
    line: &Line,
    levels: &[Level],
    bytes: &mut [u8],
) -> Result<usize, Fault>
    ensures answer { result ≡ size_answered (job_pack measure price line.now.vertices.now levels.now (length bytes.old)) }
    ensures bytes_after { bytes.new ≡ bytes_after (job_pack measure price line.now.vertices.now levels.now (length bytes.old)) bytes.old }
    ensures accepts_exactly { Decides (is_ok result) (WritableJob measure price levels.now (job_size (length line.now.vertices.now) (length levels.now)) (length bytes.old)) }
    ensures reads_back { IfOk result (λ size. ReadAsJob measure price line.now.vertices.now levels.now (take size bytes.new)) }
    ensures writes_what_was_read { (bs : List ℕ) → Octets bs → ReadAsJob measure price line.now.vertices.now levels.now bs → length bs ≤ length bytes.old → Writes bs bytes.old bytes.new result }
{
    check_job(measure, price, levels)?;
    if 20 + 4 * line.count() + 8 * levels.len() > bytes.len() {
        return Err(Fault::new(Cause::Memory, Layer::Pack, 3));
    }
    Ok(put_job(bytes, measure, price, line, levels))
}
