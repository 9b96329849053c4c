// Drawings, and why none is made.
ghost use Rattle.std.specs.Prelude.{◌≡◌, Some};
ghost use Rattle.drawings.specs.Text.{error_text};
ghost use Rattle.drawings.specs.declared.drawing.DrawError.TheVariants.{Refused, OutOfMemory};

use lines::fault::Fault;
use std::alloc::AllocError;
use std::error::Error;
use std::fmt;

// The first least family of a job: its number of levels, the stay of each vertex, and the form of its total.
#[derive(Drop)]
pub struct Drawing {
    pub levels: usize,
    pub stays: Vec<u8>,
    pub form: (u32, u64),
}

// Why there is no drawing: the pack is refused, or memory runs out.
#[derive(Clone, Copy, Debug)]
pub enum DrawError {
    Refused(Fault),
    OutOfMemory,
}

impl From<Fault> for DrawError {
    ghost from_gives = { λ fault error. error ≡ Refused fault };

    fn from(fault: Fault) -> DrawError {
        DrawError::Refused(fault)
    }
}

impl From<AllocError> for DrawError {
    ghost from_gives = { λ _ error. error ≡ OutOfMemory };

    fn from(_error: AllocError) -> DrawError {
        DrawError::OutOfMemory
    }
}

// The line of the refusal, or that memory ran out.
impl fmt::Display for DrawError {
    ghost output = { λ error. Some (error_text error) };

    fn fmt<W: fmt::Write>(&self, f: &mut fmt::Formatter<W>) -> fmt::Result {
        match self {
            Self::Refused(fault) => write!(f, "{fault}"),
            Self::OutOfMemory => f.write_str("out of memory"),
        }
    }
}

impl Error for DrawError {}
