// What edits did, as text.
ghost use Rattle.std.specs.Prelude.{◌≡◌, Some, IfOk, string_bytes};
ghost use Rattle.edits.specs.Text.{done_text, answer_text, edits_text};

use crate::job::Edited;
use crate::script::Edit;
use drawings::text::family_text;
use sheets::call::{Answer, Outcome};
use std::alloc::{AllocError, Global};
use std::fmt;

// What an accepted edit did.
impl fmt::Display for Edit {
    ghost output = { λ edit. Some (done_text edit) };

    fn fmt<W: fmt::Write>(&self, f: &mut fmt::Formatter<W>) -> fmt::Result {
        match self {
            Self::Pin(v) => write!(f, "pinned {v}"),
            Self::Release(v) => write!(f, "released {v}"),
            Self::Retune(k, t) => write!(f, "retuned {k} {t}"),
            Self::Draw => f.write_str("drawn"),
        }
    }
}

// The lines of an edit: what it did, the family that it drew, or the line of its refusal.
fn answer_text(
    heap: Global,
    m: usize,
    edit: Edit,
    answer: &Answer<(u32, u64)>,
) -> Result<String, AllocError>
    ensures { IfOk result (λ s. string_bytes s ≡ answer_text m edit answer.now) }
{
    let mut text = String::new(heap);
    match answer {
        Ok(Outcome::Done) => writeln!(text, "{edit}")?,
        Ok(Outcome::Drew(drawn)) => return family_text(heap, m, &drawn.stays, drawn.total),
        Err(fault) => writeln!(text, "{fault}")?,
    }
    Ok(text)
}

// The lines of edits, one after another.
pub fn edits_text(heap: Global, edits: &[Edit], edited: &Edited) -> Result<String, AllocError>
    ensures { IfOk result (λ s. string_bytes s ≡ edits_text edited.now edits.now) }
{
    let mut text = String::new(heap);
    for (edit, answer) in edits.iter().zip(edited.answers.iter()) {
        text.push_str(&answer_text(heap, edited.levels, *edit, answer)?)?;
    }
    Ok(text)
}
