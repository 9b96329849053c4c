// How far long work is, as text, and when it is told.
ghost use Rattle.std.specs.Prelude.{◌≤◌, ◌↔◌, Some, IsTrue};
ghost use Rattle.std.specs.Duration.{as_nanos};
ghost use Rattle.progress.specs.Progress.{progress_text};

use std::fmt;
use std::time::Duration;

// How many are done, of how many if that is known, and what they are: edits, lines or the like.
#[derive(Clone, Copy)]
pub struct Progress {
    pub done: usize,
    pub all: Option<usize>,
    pub noun: &'static str,
}

// The numbers and the noun, as `120 of 1000 edits` or `5000 lines`.
impl fmt::Display for Progress {
    ghost output = { λ progress. Some (progress_text progress.done progress.all progress.noun.now) };

    fn fmt<W: fmt::Write>(&self, f: &mut fmt::Formatter<W>) -> fmt::Result {
        let done = self.done;
        let noun = self.noun;
        match self.all {
            Some(all) => write!(f, "{done} of {all} {noun}"),
            None => write!(f, "{done} {noun}"),
        }
    }
}

// Whether progress is to be told again, so long after it was told: once a second has passed.
pub fn is_due(passed: Duration) -> bool
    ensures { IsTrue result ↔ (1_000_000_000 ≤ as_nanos passed) }
{
    passed.as_secs() >= 1
}
