// Verdicts as text.
ghost use Rattle.std.specs.Prelude.{◌≡◌, Some, IfOk, string_bytes};
ghost use Rattle.lines.specs.Fault.{refused_text};
ghost use Rattle.marker.specs.Verdict.{verdict_text};

use lines::fault::Fault;
use std::alloc::{AllocError, Global};
use std::fmt;

// The verdict on a family: the form of its total, or the first fault.
#[derive(Clone, Copy)]
pub struct Verdict(pub Result<(u32, u64), Fault>);

// The line of a verdict.
impl fmt::Display for Verdict {
    ghost output = { λ verdict. Some (verdict_text verdict.0) };

    fn fmt<W: fmt::Write>(&self, f: &mut fmt::Formatter<W>) -> fmt::Result {
        match self.0 {
            Ok((first, second)) => write!(f, "valid {first} {second}"),
            Err(fault) => write!(f, "{fault}"),
        }
    }
}

// The line of a refusal. A public call of its own: it answers the text in memory, which `Display` writes.
pub fn refusal_line(heap: Global, fault: Fault) -> Result<String, AllocError>
    ensures { IfOk result (λ s. string_bytes s ≡ refused_text fault) }
{
    fault.to_string(heap)
}

// The line of a verdict, likewise.
pub fn verdict_line(heap: Global, verdict: Result<(u32, u64), Fault>) -> Result<String, AllocError>
    ensures { IfOk result (λ s. string_bytes s ≡ verdict_text verdict) }
{
    Verdict(verdict).to_string(heap)
}
