// Edits, and reading them off the lines of a script.
ghost use Rattle.std.specs.Prelude.{◌≡◌, map, Some};
ghost use Rattle.edits.specs.Edit.{call_of};
ghost use Rattle.edits.specs.Script.{orders_nothing, edit_in, script_in, ReadAs, GivesScriptBack, error_text};
ghost use Rattle.edits.specs.declared.script.ScriptError.TheVariants.{OutOfMemory};

use lines::vertex::Vertex;
use search::room::Room;
use sheets::call::Call;
use std::alloc::{AllocError, Global};
use std::error::Error;
use std::fmt;
use words::{lines, whole_number, words};

// An edit of a job: a draw is of the job's line.
#[derive(Clone, Copy, PartialEq, Eq, Debug)]
pub enum Edit {
    Pin(usize),
    Release(usize),
    Retune(usize, u32),
    Draw,
}

impl Edit {
    // The call on a sheet: a draw of this line, in this room.
    pub(crate) fn call<'a>(self, line: &'a [Vertex], room: Room) -> Call<'a>
        ensures { result ≡ call_of line.entry room self }
    {
        match self {
            Self::Pin(v) => Call::Pin(v),
            Self::Release(v) => Call::Release(v),
            Self::Retune(k, t) => Call::Retune(k, t),
            Self::Draw => Call::Draw(line, room),
        }
    }
}

// Why a script cannot be read: the first line that is no edit, counted from 1, or memory runs out.
#[derive(Clone, Copy, Debug)]
pub enum ScriptError {
    Line(usize),
    OutOfMemory,
}

impl From<AllocError> for ScriptError {
    ghost from_gives = { λ _ error. error ≡ OutOfMemory };

    fn from(_error: AllocError) -> ScriptError {
        ScriptError::OutOfMemory
    }
}

// The number of the line and what a line may be, or that memory ran out.
impl fmt::Display for ScriptError {
    ghost output = { λ error. Some (error_text error) };

    fn fmt<W: fmt::Write>(&self, f: &mut fmt::Formatter<W>) -> fmt::Result {
        match self {
            Self::Line(n) => write!(f, "line {n}: expected pin V, release V, retune K T or draw"),
            Self::OutOfMemory => f.write_str("out of memory"),
        }
    }
}

impl Error for ScriptError {}

// Whether the words of a line order nothing: there are none, or the first begins with #.
fn is_blank_or_comment(words: &[&[u8]]) -> bool
    ensures { result ≡ orders_nothing (map (λ w. w.now) words.now) }
{
    match *words {
        [] => true,
        [first, ..] => first.first() == Some(&b'#'),
    }
}

// The edit that the words of a line order.
fn read_edit(words: &[&[u8]]) -> Option<Edit>
    ensures { result ≡ edit_in (map (λ w. w.now) words.now) }
{
    match *words {
        [name] if name == b"draw".as_slice() => Some(Edit::Draw),
        [name, v] if name == b"pin".as_slice() => Some(Edit::Pin(whole_number(v)? as usize)),
        [name, v] if name == b"release".as_slice() => {
            Some(Edit::Release(whole_number(v)? as usize))
        }
        [name, k, t] if name == b"retune".as_slice() => {
            Some(Edit::Retune(whole_number(k)? as usize, whole_number(t)?))
        }
        _ => None,
    }
}

// The edits that the lines of a script order, one a line. Blank lines and lines whose first word begins with # are passed over.
pub fn read_script(heap: Global, text: &[u8]) -> Result<Vec<Edit>, ScriptError>
    ensures answer { ReadAs (script_in text.now) result }
    ensures gives_script_back { GivesScriptBack text.now result }
{
    let mut edits = Vec::new(heap);
    for (i, line) in lines(heap, text)?.iter().enumerate() {
        let words = words(heap, line)?;
        if !is_blank_or_comment(&words) {
            let edit = read_edit(&words).ok_or(ScriptError::Line(i + 1))?;
            edits.push(edit).map_err(AllocError::from)?;
        }
    }
    Ok(edits)
}
