// Reading the chains of a family back off its stays.
ghost use Rattle.std.specs.Prelude.{◌≡◌, length, IfOk, slice_index};
ghost use Rattle.families.specs.Stay.{read_off};
ghost use Rattle.search.specs.Next.{NextOnChain};

use std::alloc::{AllocError, Global};

// The vertex after v on the chain of level k: the next whose stay is k or larger.
pub fn next_on_chain(stays: &[u8], k: usize, v: usize) -> Option<usize>
    ensures { NextOnChain (read_off (λ w. slice_index stays.now w) (length stays.now) k) v result }
{
    (v.saturating_add(1)..stays.len()).find(|w| stays[*w] as usize >= k)
}

// The chain of level k: the vertices whose stay is k or larger.
pub fn read_chain(heap: Global, stays: &[u8], k: usize) -> Result<Vec<usize>, AllocError>
    ensures { IfOk result (λ chain. chain.items ≡ read_off (λ v. slice_index stays.now v) (length stays.now) k) }
{
    (0..stays.len())
        .filter(|v| stays[*v] as usize >= k)
        .collect(heap)
}
