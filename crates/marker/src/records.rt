// The chain and total records of a family pack.
ghost use Rattle.std.specs.Prelude.{◌≡◌, ◌+◌, ◌≤◌, true, length, IfOk};
ghost use Rattle.std.specs.Iterator.{YieldsFirstBy, at_most};
ghost use Rattle.marker.specs.Chain.{numbers_of};
ghost use Rattle.marker.specs.Records.{whole, chains_in, chains_end, structure, claimed};

use crate::chain::Chain;
use lines::fault::{Cause, Fault, Layer};
use packs::bytes::{u32_at, u64_at};
use packs::record::{Due, body_length};

// So many chain records that follow one another, each whole.
#[derive(Clone, Copy)]
pub(crate) struct Chains<'a> {
    pub(crate) rest: &'a [u8],
    pub(crate) left: usize,
    ghost inside: { whole left rest.now ≡ true },
}

// The chains, one by one.
impl<'a> Iterator for Chains<'a> {
    type Item = Chain<'a>;

    ghost next_gives = { YieldsFirstBy numbers_of (λ chains. chains_in chains.left chains.rest.now) };

    ghost remaining = { λ chains. at_most chains.left };

    fn next(&mut self) -> Option<Chain<'a>> {
        if self.left == 0 {
            return None;
        }
        let end = 6 + u32_at(self.rest, 0) as usize;
        let chain = Chain::of(&self.rest[6..end]);
        *self = Chains {
            rest: &self.rest[end..],
            left: self.left - 1,
        };
        Some(chain)
    }
}

// The structure of the chain records of m levels: where they end.
// `_k` counts the records and indexes nothing; `Chains` cannot walk here, where no record is known to be whole yet.
fn chains_end(records: &[u8], n: usize, m: usize) -> Result<usize, Fault>
    ensures answer { result ≡ chains_end n m 0 records.now }
    ensures within { IfOk result (λ stop. stop ≤ length records.now) }
{
    let mut at = 0;
    for _k in 0..m {
        let size = body_length(records, at, Due::Chain(n))?;
        at = at + 6 + size;
    }
    Ok(at)
}

// The structure of all records of a family of m levels; it answers where the total's record starts.
pub(crate) fn structure(records: &[u8], n: usize, m: usize) -> Result<usize, Fault>
    ensures answer { result ≡ structure n m records.now }
    ensures whole { IfOk result (λ _. whole m records.now ≡ true) }
    ensures ends { IfOk result (λ stop. stop + 18 ≡ length records.now) }
{
    let stop = chains_end(records, n, m)?;
    body_length(records, stop, Due::Total)?;
    if stop + 18 != records.len() {
        return Err(Fault::new(Cause::LeftOver, Layer::Pack, stop + 18));
    }
    Ok(stop)
}

// The form that the total's record claims, which starts at `stop`.
pub(crate) fn claimed(records: &[u8], stop: usize) -> (u32, u64)
    requires { stop + 18 ≡ length records.now }
    ensures { result ≡ claimed stop records.now }
{
    (u32_at(records, stop + 6), u64_at(records, stop + 10))
}
