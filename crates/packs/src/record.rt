ghost use Rattle.std.specs.Prelude.{◌≡◌, ◌+◌, ◌≤◌, true, length, drop, IfOk};
ghost use Rattle.packs.specs.Record.{kind_of, fits, record_at};

use crate::bytes::{u16_at, u32_at};
use lines::fault::{Cause, Fault, Layer};

// The record that is due at a place. A chain's is told the number of vertices of its line.
// Its numbers stand in `kind` and are no discriminants: where a variant has a payload, `as` does not read them.
#[derive(Clone, Copy)]
pub enum Due {
    Numbers,
    Vertices,
    Levels,
    Chain(usize),
    Total,
}

impl Due {
    // The kind that the record must have.
    pub fn kind(self) -> u16
        ensures { result ≡ kind_of self }
    {
        match self {
            Due::Numbers => 1,
            Due::Vertices => 2,
            Due::Levels => 3,
            Due::Chain(_) => 4,
            Due::Total => 5,
        }
    }

    // Whether a body of this length fits the kind.
    pub fn fits(self, size: u32) -> bool
        ensures { result ≡ fits self size }
    {
        match self {
            Due::Numbers => size == 2,
            Due::Vertices => size % 4 == 0 && size >= 8 && size <= 1024,
            Due::Levels => size % 8 == 0 && size >= 8 && size <= 64,
            Due::Chain(n) => size % 2 == 0 && size >= 4 && (size as usize) / 2 <= n,
            Due::Total => size == 12,
        }
    }
}

// The body length of the record that is due at a place, or the first fault.
pub fn body_length(bytes: &[u8], at: usize, due: Due) -> Result<usize, Fault>
    ensures answer { result ≡ record_at due at (drop at bytes.now) }
    ensures within { IfOk result (λ n. at + 6 + n ≤ length bytes.now) }
    ensures fitting { IfOk result (λ n. fits due n ≡ true) }
{
    let left = bytes.len().saturating_sub(at);
    if left < 6 {
        return Err(Fault::new(Cause::RunsOut, Layer::Pack, at));
    }
    if u16_at(bytes, at + 4) != due.kind() {
        return Err(Fault::new(Cause::WrongKind, Layer::Pack, at));
    }
    let size = u32_at(bytes, at);
    if !due.fits(size) {
        return Err(Fault::new(Cause::WrongLength, Layer::Pack, at));
    }
    if left - 6 < size as usize {
        return Err(Fault::new(Cause::RunsOut, Layer::Pack, at));
    }
    Ok(size as usize)
}
