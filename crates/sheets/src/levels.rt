ghost use Rattle.std.specs.Prelude.{◌≡◌, ◌≤◌, ◌&&◌, ◌||◌, length, is_ok, if◌then◌else◌, OnErr, nat_le, nat_lt, Decides};
ghost use Rattle.lines.specs.Level.{level_of, LawfulLevels};
ghost use Rattle.sheets.specs.Levels.{fits, retune_answer, retuned, Retunable};

use arrayvec::ArrayVec;
use lines::fault::{Cause, Fault, Layer};
use lines::level::Level;

// The level records of a sheet, level 1 first.
#[derive(Drop)]
pub(crate) struct Levels {
    records: ArrayVec<Level, 8>,
}

impl Levels {
    // The records of these levels.
    pub(crate) fn of(levels: &[Level]) -> Levels
        requires { length levels.now ≤ 8 }
        ensures { result.records.items ≡ levels.now }
    {
        Levels {
            records: ArrayVec::try_from(levels).unwrap_or_default(),
        }
    }

    // The levels.
    pub(crate) fn as_slice(&self) -> &[Level]
        ensures { result.now ≡ self.now.records.items }
    {
        &self.records
    }

    // Whether the tolerance t fits at level k, up to the largest.
    fn fits(&self, k: usize, t: u32, largest: u32) -> bool
        requires { (1 ≤ k) × (k ≤ length self.now.records.items) }
        ensures { result ≡ fits largest self.now.records.items k t }
    {
        let above_finer = k == 1 || self.records[k - 2].tolerance < t;
        let below_coarser = k == self.records.len() || t < self.records[k].tolerance;
        above_finer && below_coarser && t <= largest
    }

    // Sets the tolerance of level k, or refuses and leaves the records as they stood.
    pub(crate) fn retune(&mut self, k: usize, t: u32, largest: u32) -> Result<(), Fault>
        ensures answer { result ≡ retune_answer largest self.old.records.items k t }
        ensures levels_after { self.new.records.items ≡ (if is_ok result then retuned self.old.records.items k t else self.old.records.items) }
        ensures refusal_leaves_levels { OnErr result (self.new ≡ self.old) }
    {
        if k < 1 || k > self.records.len() {
            return Err(Fault::new(Cause::Level, Layer::Sheet, k));
        }
        if !self.fits(k, t, largest) {
            return Err(Fault::new(Cause::Tolerance, Layer::Sheet, k));
        }
        self.records[k - 1].tolerance = t;
        Ok(())
    }
}
