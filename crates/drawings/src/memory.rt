// Memory of a heap, to be lent.
ghost use Rattle.std.specs.Prelude.{◌≡◌, ℕ, ◌<◌, length, IfOk, slice_index_or};

use std::alloc::{AllocError, Global};

// Memory of n equal values.
pub fn filled<T: Copy>(heap: Global, n: usize, value: T) -> Result<Vec<T>, AllocError>
    ensures length { IfOk result (λ memory. length memory.items ≡ n) }
    ensures values { IfOk result (λ memory. (i : ℕ) (d : T) → i < n → slice_index_or memory.items i d ≡ value) }
{
    let mut memory = Vec::new(heap);
    memory.resize(n, value)?;
    Ok(memory)
}
