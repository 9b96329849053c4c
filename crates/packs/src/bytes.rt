// Little-endian numbers in byte strings. Bytes past the end read as 0.
ghost use Rattle.std.specs.Prelude.{◌≡◌, ℕ, ◌+◌, ◌<◌, slice_index};
ghost use Rattle.packs.specs.Bytes.{field};

use std::array;

// The byte at a place.
pub fn u8_at(bytes: &[u8], at: usize) -> u8
    ensures { result ≡ slice_index bytes.now at }
{
    bytes.get(at).copied().unwrap_or(0)
}

// The N bytes from a place on.
fn part<const N: usize>(bytes: &[u8], at: usize) -> [u8; N]
    ensures { (i : ℕ) → i < N → slice_index result i ≡ slice_index bytes.now (at + i) }
{
    array::from_fn(|i| u8_at(bytes, at.saturating_add(i)))
}

// The 16-bit number at a place.
// The three numbers are three public calls of one line over `part`: a generic one, by a trait with `from_le_bytes`, would only be a fourth.
pub fn u16_at(bytes: &[u8], at: usize) -> u16
    ensures { result ≡ field 2 at bytes.now }
{
    u16::from_le_bytes(part(bytes, at))
}

// The 32-bit number at a place.
pub fn u32_at(bytes: &[u8], at: usize) -> u32
    ensures { result ≡ field 4 at bytes.now }
{
    u32::from_le_bytes(part(bytes, at))
}

// The 64-bit number at a place.
pub fn u64_at(bytes: &[u8], at: usize) -> u64
    ensures { result ≡ field 8 at bytes.now }
{
    u64::from_le_bytes(part(bytes, at))
}
