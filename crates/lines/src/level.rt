ghost use Rattle.std.specs.Prelude.{◌≡◌, ◌≤◌, is_ok, Decides};
ghost use Rattle.lines.specs.Level.{LawfulLevels, judged_levels, judged_count};

use crate::fault::{Cause, Fault, Layer};

// A level of a job: its tolerance and its weight. Level 1 is the finest.
#[derive(Clone, Copy, PartialEq, Eq, Default, Debug)]
pub struct Level {
    pub tolerance: u32,
    pub weight: u32,
}

// Judges the number of levels: 1 to 8.
pub fn check_count(m: usize, layer: Layer) -> Result<(), Fault>
    ensures answer { result ≡ judged_count layer m }
    ensures lawful { Decides (is_ok result) ((1 ≤ m) × (m ≤ 8)) }
{
    if m < 1 || m > 8 {
        return Err(Fault::new(Cause::Limits, layer, 1));
    }
    Ok(())
}

// Judges levels one by one, tolerance before weight, for the layer that asks.
pub fn check_levels(levels: &[Level], largest: u32, layer: Layer) -> Result<(), Fault>
    ensures answer { result ≡ judged_levels largest layer levels.now }
    ensures lawful { Decides (is_ok result) (LawfulLevels largest levels.now) }
{
    let mut least: u64 = 0;
    // A loop, no chain: each level is held against the one before, and the first fault names its place.
    for (i, l) in levels.iter().enumerate() {
        if (l.tolerance as u64) < least || l.tolerance > largest {
            return Err(Fault::new(Cause::Tolerance, layer, i + 1));
        }
        if l.weight < 1 || l.weight > 1000 {
            return Err(Fault::new(Cause::Weight, layer, i + 1));
        }
        least = l.tolerance as u64 + 1;
    }
    Ok(())
}
