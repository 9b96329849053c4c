// A family pack that the marker finds valid, read into memory.
ghost use Rattle.valid.specs.Family.{ReadsValid};

use lines::fault::Fault;
use marker::pack::mark_pack;
use marker::place::ChainPlace;
use marker::reader::read_chains;
use packs::job::Job;
use packs::place::Place;
use packs::reader::read_family_head;

// A valid family: the place of its job and the job's sizes, the place of its chains and how many vertices they have together, and the
// form of its total.
#[derive(Drop)]
pub struct ValidFamily {
    pub place: Place,
    pub job: Job,
    pub chains: ChainPlace,
    pub vertices: usize,
    pub total: (u32, u64),
}

// Marks and reads a family pack, or answers the marker's fault.
pub fn read_valid(bytes: &[u8]) -> Result<ValidFamily, Fault>
    ensures { ReadsValid bytes.now result }
{
    let total = mark_pack(bytes)?;
    let mut place = Place::blank();
    let (job, end) = read_family_head(bytes, &mut place)?;
    let mut chains = ChainPlace::blank();
    let claim = read_chains(&bytes[end..], job.vertices, job.levels, &mut chains)?;
    Ok(ValidFamily {
        place,
        job,
        chains,
        vertices: claim.vertices,
        total,
    })
}
