ghost use Rattle.std.specs.Prelude.{◌≡◌, ◌≤◌, is_ok, Decides, MatchResult};
ghost use Rattle.lines.specs.declared.fault.Cause.TheVariants.{Limits};
ghost use Rattle.lines.specs.declared.fault.Layer.TheVariants.{Content};
ghost use Rattle.lines.specs.Fault.{fault};
ghost use Rattle.layers.specs.Reach.{over_reach};
ghost use Rattle.layers.specs.Layered.{over_reach_rules};

use lines::fault::{Cause, Fault, Layer};
use lines::level::Level;
use lines::line::Line;
use measures::measure::Measure;

// A reach over a measure: no link may go further ahead than so many vertices.
#[derive(Drop)]
pub struct Reach<M> {
    below: M,
    reach: usize,
}

impl<M: Drop> Reach<M> {
    // The reach r over the measure `below`.
    pub fn over(below: M, r: usize) -> Result<Reach<M>, Fault>
        ensures limits { Decides (is_ok result) ((1 ≤ r) × (r ≤ 255)) }
        ensures answer { MatchResult result (λ p. (p.below ≡ below) × (p.reach ≡ r)) (λ f. f ≡ fault Limits Content 2) }
    {
        if r < 1 || r > 255 {
            return Err(Fault::new(Cause::Limits, Layer::Content, 2));
        }
        Ok(Reach { below, reach: r })
    }
}

impl<M> Reach<M> {
    // The measure below.
    pub fn below(&self) -> &M
        ensures { result.now ≡ self.now.below }
    {
        &self.below
    }

    // The reach.
    pub fn reach(&self) -> usize
        ensures { result ≡ self.now.reach }
    {
        self.reach
    }
}

impl<M: Measure> Measure for Reach<M> {
    const LARGEST: u32 = M::LARGEST;

    ghost LARGEST = { M.Measure.LARGEST };

    ghost says = { λ p. over_reach p.reach M.Measure.LARGEST (M.Measure.says p.below) };

    ghost rules = { λ m. over_reach_rules m.reach (M.Measure.rules m.below) };

    fn allows(&self, line: &Line, i: usize, j: usize, t: u32) -> bool {
        if !line.is_link(i, j) || t > M::LARGEST {
            return false;
        }
        j == i + 1 || j - i <= self.reach && self.below.allows(line, i, j, t)
    }

    // The reach is looked at once, for all levels.
    fn first_level(&self, line: &Line, levels: &[Level], i: usize, j: usize) -> Option<usize> {
        let ahead = j.saturating_sub(i);
        if ahead > 1 && ahead > self.reach {
            return None;
        }
        self.below.first_level(line, levels, i, j)
    }
}
