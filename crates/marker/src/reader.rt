// Reading the chains of a family, unjudged.
ghost use Rattle.std.specs.Prelude.{◌≡◌};
ghost use Rattle.marker.specs.Reader.{family_in, claim_of, placed_numbers, placed_counts, ReadsWritten};

use crate::place::ChainPlace;
use crate::records::{Chains, claimed, structure};
use lines::fault::{Fault, Layer};
use lines::level::check_count;
use lines::line::check_size;

// What reading chains answers: how many chain vertices now lie in the place, and the form of the claimed total.
#[derive(Clone, Copy, PartialEq, Eq, Debug)]
pub struct Claim {
    pub vertices: usize,
    pub total: (u32, u64),
}

// Reads the chain and total records of a family of m levels of a line of n vertices into the place.
// Only their structure is judged. A refusal leaves the place as it stood.
#[tactic(auto, using(crate::proofs::Reading::reads_written))]
pub fn read_chains(
    records: &[u8],
    n: usize,
    m: usize,
    place: &mut ChainPlace,
) -> Result<Claim, Fault>
    ensures answer { result ≡ claim_of (family_in n m records.now) }
    ensures accepts_exactly_written_records { ReadsWritten n m records.now }
    ensures numbers { place.new.numbers ≡ placed_numbers (family_in n m records.now) place.old.numbers }
    ensures counts { place.new.counts ≡ placed_counts (family_in n m records.now) place.old.counts }
{
    check_size(n, Layer::Pack)?;
    check_count(m, Layer::Pack)?;
    let stop = structure(records, n, m)?;
    let vertices = place.put(Chains {
        rest: records,
        left: m,
    });
    Ok(Claim {
        vertices,
        total: claimed(records, stop),
    })
}
