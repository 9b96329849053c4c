// Writing the pack of a family.
ghost use Rattle.std.specs.Prelude.{◌≡◌, ℕ, ◌+◌, ◌*◌, ◌^◌, ◌<◌, ◌≤◌, ◌==◌, map, All, Decides, List, length, take, sum, is_ok, OnOk, IfOk, slice_index};
ghost use Rattle.std.specs.List.{concat, flat_map};
ghost use Rattle.packs.specs.Bytes.{Octets};
ghost use Rattle.marker.specs.Records.{chain_record};
ghost use Rattle.marker.specs.Wrote.{Wrote};
ghost use Rattle.writer.specs.Job.{size_answered, bytes_after, Writes};
ghost use Rattle.writer.specs.Family.{chains_of, judged_counts, CountsFit, family_pack, WritableFamily, ReadAsFamily};

use crate::job::check_job;
use crate::put::{put_chain_record, put_job, put_total_record};
use lines::fault::{Cause, Fault, Layer};
use lines::level::Level;
use lines::line::Line;

// A family as it is given to the writer: all chains end to end, the finest first, how many vertices each has, and the form of the total.
#[derive(Clone, Copy)]
pub struct Family<'a> {
    pub chains: &'a [u16],
    pub counts: &'a [usize],
    pub total: (u32, u64),
}

// Whether counts add up to a number. A number is taken down by them, so that no sum can overflow.
fn add_up(counts: &[usize], number: usize) -> bool
    ensures { result ≡ (sum counts.now == number) }
{
    let mut left = number;
    for count in counts {
        let Some(less) = left.checked_sub(*count) else {
            return false;
        };
        left = less;
    }
    left == 0
}

impl Family<'_> {
    // Judges the counts, for a line of n vertices and m levels.
    fn check(&self, n: usize, m: usize) -> Result<(), Fault>
        ensures fit { OnOk result (CountsFit n m self.now.counts.now (length self.now.chains.now)) }
        ensures answer { result ≡ judged_counts n m self.now.counts.now (length self.now.chains.now) }
    {
        if self.counts.len() != m || !add_up(self.counts, self.chains.len()) {
            return Err(Fault::new(Cause::WrongLength, Layer::Pack, 0));
        }
        for (i, count) in self.counts.iter().enumerate() {
            if *count < 2 || *count > n {
                return Err(Fault::new(Cause::WrongLength, Layer::Pack, i + 1));
            }
        }
        Ok(())
    }
}

// Writes the records of chains that lie end to end at a place, and answers the place after them.
fn put_chains(bytes: &mut [u8], at: usize, counts: &[usize], chains: &[u16]) -> usize
    requires counts { (sum counts.now ≡ length chains.now) × ((i : ℕ) → i < length counts.now → slice_index counts.now i ≤ 256) }
    requires room { at + 6 * length counts.now + 2 * length chains.now ≤ length bytes.old }
    ensures wrote { Wrote at bytes.old bytes.new (flat_map chain_record (chains_of counts.now chains.now)) result }
    ensures end { result ≡ at + 6 * length counts.now + 2 * length chains.now }
    ensures narrow { All (λ v. v < 2 ^ 16) chains.now }
{
    let mut end = at;
    let mut numbers = chains;
    for count in counts {
        let (chain, rest) = numbers.split_at(*count);
        end = put_chain_record(bytes, end, chain);
        numbers = rest;
    }
    end
}

// Writes the pack of a family into lent bytes, and answers how many it takes; or refuses and writes nothing. Bytes past these keep their contents.
// The chains are not judged: any numbers in them are written.
pub fn write_family(
    measure: u8,
    price: u8,
    line: &Line,
    levels: &[Level],
    family: &Family,
    bytes: &mut [u8],
) -> Result<usize, Fault>
    ensures answer { result ≡ size_answered (family_pack measure price line.now.vertices.now levels.now family.now (length bytes.old)) }
    ensures bytes_after { bytes.new ≡ bytes_after (family_pack measure price line.now.vertices.now levels.now family.now (length bytes.old)) bytes.old }
    ensures accepts_exactly { Decides (is_ok result) (WritableFamily measure price (length line.now.vertices.now) levels.now family.now (length bytes.old)) }
    ensures reads_back { IfOk result (λ size. ReadAsFamily measure price line.now.vertices.now levels.now (chains_of family.now.counts.now family.now.chains.now) family.now.total (take size bytes.new)) }
    ensures writes_what_was_read { (bs : List ℕ) (chains : List (List ℕ)) → Octets bs → ReadAsFamily measure price line.now.vertices.now levels.now chains family.now.total bs → family.now.counts.now ≡ map length chains → family.now.chains.now ≡ concat chains → length bs ≤ length bytes.old → Writes bs bytes.old bytes.new result }
{
    check_job(measure, price, levels)?;
    family.check(line.count(), levels.len())?;
    let job = 20 + 4 * line.count() + 8 * levels.len();
    let chains = 6 * family.counts.len() + 2 * family.chains.len();
    if job + chains + 18 > bytes.len() {
        return Err(Fault::new(Cause::Memory, Layer::Pack, 3));
    }
    let at = put_job(bytes, measure, price, line, levels);
    let at = put_chains(bytes, at, family.counts, family.chains);
    Ok(put_total_record(bytes, at, family.total))
}
