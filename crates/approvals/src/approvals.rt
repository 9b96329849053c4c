ghost use Rattle.std.specs.Prelude.{◌≡◌, [], ◌∷◌, ◌++◌, MatchResult};
ghost use Rattle.approvals.specs.Approvals.{entries, approval, speaks, any_speaks, approved, approvals_largest, judged_approval};
ghost use Rattle.approvals.specs.Speaking.{approved_rules};

pub use crate::approval::{Approval, Approvals};
use arrayvec::ArrayVec;
use lines::fault::{Cause, Fault, Layer};
use lines::line::Line;
use measures::measure::Measure;

impl Approval {
    // Whether this approves the link i → j at the tolerance t.
    fn speaks(&self, i: usize, j: usize, t: u32) -> bool
        ensures { result ≡ speaks i j t self.now }
    {
        self.i == i && self.j == j && self.t <= t
    }
}

impl Approvals {
    // No approvals.
    pub fn new() -> Approvals
        ensures { entries result ≡ [] }
    {
        Approvals {
            list: ArrayVec::new(),
        }
    }

    // Adds an approval, whether or not it can ever speak, or refuses when 64 are there.
    pub fn approve(&mut self, i: usize, j: usize, t: u32) -> Result<(), Fault>
        ensures answer { result ≡ judged_approval (entries self.old) }
        ensures refusal_leaves_approvals { MatchResult result (λ _. entries self.new ≡ entries self.old ++ (approval i j t ∷ [])) (λ _. self.new ≡ self.old) }
    {
        self.list
            .try_push(Approval { i, j, t })
            .map_err(|_| Fault::new(Cause::Full, Layer::Content, 0))
    }

    // Whether some approval speaks for the link i → j at the tolerance t.
    fn any_speaks(&self, i: usize, j: usize, t: u32) -> bool
        ensures { result ≡ any_speaks i j t (entries self.now) }
    {
        self.list.iter().any(|a| a.speaks(i, j, t))
    }
}

// The link to the next vertex is allowed, and each link that some approval speaks for.
impl Measure for Approvals {
    const LARGEST: u32 = 32768;

    ghost LARGEST = { approvals_largest };

    ghost says = { λ m. approved (entries m) };

    ghost rules = { λ m. approved_rules (entries m) };

    fn allows(&self, line: &Line, i: usize, j: usize, t: u32) -> bool {
        if !line.is_link(i, j) || t > Self::LARGEST {
            return false;
        }
        j == i + 1 || self.any_speaks(i, j, t)
    }
}
