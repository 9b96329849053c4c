// Drawings as text.
ghost use Rattle.std.specs.Prelude.{◌≡◌, length, Some, IfOk, string_bytes, slice_index};
ghost use Rattle.families.specs.Stay.{read_off};
ghost use Rattle.drawings.specs.Text.{level_text, total_text, levels_text, drawing_text};

use crate::drawing::Drawing;
use search::chain::read_chain;
use std::alloc::{AllocError, Global};
use std::fmt;

// The form of a total, which prints its line.
#[derive(Clone, Copy)]
struct Total((u32, u64));

impl fmt::Display for Total {
    ghost output = { λ total. Some (total_text total.0) };

    fn fmt<W: fmt::Write>(&self, f: &mut fmt::Formatter<W>) -> fmt::Result {
        let (first, second) = self.0;
        write!(f, "total {first} {second}")
    }
}

// A level with its chain, which prints its line.
#[derive(Clone, Copy)]
struct LevelChain<'a> {
    level: usize,
    chain: &'a [usize],
}

impl fmt::Display for LevelChain<'_> {
    ghost output = { λ line. Some (level_text line.level line.chain.now) };

    fn fmt<W: fmt::Write>(&self, f: &mut fmt::Formatter<W>) -> fmt::Result {
        let level = self.level;
        let links = self.chain.len().saturating_sub(1);
        write!(f, "level {level} links {links}:")?;
        for v in self.chain {
            write!(f, " {v}")?;
        }
        Ok(())
    }
}

// The line of a total. A public call of its own: it answers the text in memory, which `Display` writes.
pub fn total_line(heap: Global, form: (u32, u64)) -> Result<String, AllocError>
    ensures { IfOk result (λ s. string_bytes s ≡ total_text form) }
{
    Total(form).to_string(heap)
}

// The line of level k with its chain, likewise.
pub fn level_line(heap: Global, k: usize, chain: &[usize]) -> Result<String, AllocError>
    ensures { IfOk result (λ s. string_bytes s ≡ level_text k chain.now) }
{
    LevelChain { level: k, chain }.to_string(heap)
}

// The lines of m levels, with the chains that are read off the stays.
fn level_lines(heap: Global, m: usize, stays: &[u8]) -> Result<String, AllocError>
    ensures { IfOk result (λ s. string_bytes s ≡ levels_text m (read_off (λ v. slice_index stays.now v) (length stays.now))) }
{
    let mut text = String::new(heap);
    // A level is the subject here, and indexes no slice.
    for level in 1..=m {
        let chain = read_chain(heap, stays, level)?;
        let line = LevelChain {
            level,
            chain: chain.as_slice(),
        };
        writeln!(text, "{line}")?;
    }
    Ok(text)
}

// The lines of a family of m levels, with the chains that are read off the stays, and that of its total, by its form.
// No `Display` writes them: a chain is read into memory, and a `Display` is given no heap.
pub fn family_text(
    heap: Global,
    m: usize,
    stays: &[u8],
    form: (u32, u64),
) -> Result<String, AllocError>
    ensures { IfOk result (λ s. string_bytes s ≡ drawing_text m stays.now form) }
{
    let mut text = level_lines(heap, m, stays)?;
    let total = Total(form);
    writeln!(text, "{total}")?;
    Ok(text)
}

// The lines of a drawing.
pub fn drawing_text(heap: Global, drawing: &Drawing) -> Result<String, AllocError>
    ensures { IfOk result (λ s. string_bytes s ≡ drawing_text drawing.now.levels drawing.now.stays.items drawing.now.form) }
{
    family_text(heap, drawing.levels, drawing.stays.as_slice(), drawing.form)
}
