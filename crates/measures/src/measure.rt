ghost use Rattle.std.specs.Prelude.{◌≡◌, ℕ, Bool, length};
ghost use Rattle.measures.specs.Measure.{Answer, Rules, allowed_by, first_passing, first_allowing, FirstAllowed};

use lines::level::Level;
use lines::line::Line;

// A measure says yes or no for a line, a link and a tolerance. `says` is what it means; every measure shows its rules.
pub trait Measure {
    // The largest tolerance; a question with a larger one gets no.
    const LARGEST: u32;

    ghost LARGEST: { ℕ };

    ghost says: { Self → Answer };

    // Whether the link from i to j is allowed at the tolerance t. A link is two numbers, as callers have them, and no struct to be made for each question.
    fn allows(&self, line: &Line, i: usize, j: usize, t: u32) -> bool
        ensures { result ≡ says self.now line.now.vertices.now i j t };

    // The first of the levels that allows the link from i to j; none where no level does.
    fn first_level(&self, line: &Line, levels: &[Level], i: usize, j: usize) -> Option<usize>
        ensures answer { result ≡ first_allowing (says self.now) line.now.vertices.now levels.now i j }
        ensures tells_first_level { FirstAllowed (λ k. allowed_by (says self.now) line.now.vertices.now levels.now k i j) (length levels.now) result }
    {
        first_passing(levels, |t| self.allows(line, i, j, t))
    }

    ghost rules: { (m : Self) → Rules LARGEST (says m) };
}

// The first of the levels whose tolerance passes a test; none where no level's does.
pub(crate) fn first_passing<F: Fn(u32) -> bool>(levels: &[Level], passes: F) -> Option<usize>
    requires { F.IsAlwaysCallable passes }
    ensures { (test : ℕ → Bool) → ((t : ℕ) (answer : Bool) → F.post passes t answer → answer ≡ test t) → result ≡ first_passing test levels.now }
{
    let place = levels.iter().position(|level| passes(level.tolerance))?;
    Some(place + 1)
}
