// The place that the reader of chains fills.
ghost use Rattle.std.specs.Prelude.{◌≡◌, ◌≤◌, ◌++◌, All, map, length, drop, replicate};
ghost use Rattle.std.specs.List.{concat};
ghost use Rattle.marker.specs.Records.{chains_in};

use crate::records::Chains;

// A place for the chains of a family: whole arrays that the caller lends, with room for 8 chains of 256 vertices, end to end, and 8 counts.
// They carry no lengths: the reader promises that what lies past what it read stays as it was.
#[derive(Drop)]
pub struct ChainPlace {
    pub numbers: [u16; 2048],
    pub counts: [usize; 8],
    ghost sized: { (length numbers ≡ 2048) × (length counts ≡ 8) },
}

impl ChainPlace {
    // A place filled with zeros.
    pub fn blank() -> ChainPlace
        ensures numbers { result.numbers ≡ replicate 2048 0 }
        ensures counts { result.counts ≡ replicate 8 0 }
    {
        ChainPlace {
            numbers: [0; 2048],
            counts: [0; 8],
        }
    }

    // Puts chains end to end into the place, and how many vertices each has; answers how many they have together. What lies past them stays.
    pub(crate) fn put(&mut self, chains: Chains) -> usize
        requires { (chains.left ≤ 8) × All (λ c. length c ≤ 256) (chains_in chains.left chains.rest.now) }
        ensures vertices { result ≡ length (concat (chains_in chains.entry.left chains.entry.rest.now)) }
        ensures numbers { self.new.numbers ≡ concat (chains_in chains.entry.left chains.entry.rest.now) ++ drop result self.old.numbers }
        ensures counts { self.new.counts ≡ map length (chains_in chains.entry.left chains.entry.rest.now) ++ drop chains.entry.left self.old.counts }
    {
        let mut end = 0;
        for (i, chain) in chains.enumerate() {
            self.counts[i] = chain.numbers.len();
            end = chain.put(&mut self.numbers, end);
        }
        end
    }
}
