// The whole path from bytes to a picture.
ghost use Rattle.std.specs.Prelude.{◌≡◌, ◌≤◌, T, length, Some, IfOk, string_bytes};
ghost use Rattle.pictures.specs.Show.{HasLevel, row_shown, rows_to, rows_shown, coarsest, family_text, Shows, GivesFamily, error_text};
ghost use Rattle.packs.specs.declared.kind.MeasureKind.TheVariants.{Segment};
ghost use Rattle.pictures.specs.declared.show.ShowError.TheVariants.{Refused, OutOfMemory};

use crate::family::{marks, row};
use crate::frame::Frame;
use crate::options::Options;
use crate::picture::{Picture, Row};
use drawings::drawing::DrawError;
use keys::key::key_pack;
use lines::fault::Fault;
use lines::level::Level;
use lines::vertex::Vertex;
use packs::kind::MeasureKind;
use std::alloc::{AllocError, Global};
use std::error::Error;
use std::fmt;
use texts::error::TextError;
use texts::pack::pack_text;
use valid::family::read_valid;

// Why there is no picture: the pack is refused, it has no level with the number that is asked for, bands are asked for and its measure
// is not segment, or memory runs out.
#[derive(Clone, Copy, PartialEq, Eq, Debug)]
pub enum ShowError {
    Refused(Fault),
    NoLevel,
    NoBand,
    OutOfMemory,
}

impl From<Fault> for ShowError {
    ghost from_gives = { λ fault error. error ≡ Refused fault };

    fn from(fault: Fault) -> ShowError {
        ShowError::Refused(fault)
    }
}

impl From<AllocError> for ShowError {
    ghost from_gives = { λ _ error. error ≡ OutOfMemory };

    fn from(_error: AllocError) -> ShowError {
        ShowError::OutOfMemory
    }
}

impl fmt::Display for ShowError {
    ghost output = { λ error. Some (error_text error) };

    fn fmt<W: fmt::Write>(&self, f: &mut fmt::Formatter<W>) -> fmt::Result {
        match self {
            Self::Refused(fault) => write!(f, "{fault}"),
            Self::NoLevel => f.write_str("--level: the family has no such level"),
            Self::NoBand => f.write_str("--tolerance: the measure is not segment"),
            Self::OutOfMemory => f.write_str("out of memory"),
        }
    }
}

impl Error for ShowError {}

// A family that is drawn: its line, its levels, its chains end to end, how many vertices each has, and the form of its total.
#[derive(Clone, Copy)]
struct Family<'a> {
    vertices: &'a [Vertex],
    levels: &'a [Level],
    numbers: &'a [u16],
    counts: &'a [usize],
    total: (u32, u64),
}

impl Family<'_> {
    // The row of level k, above which stand that of the line and `before` others.
    fn row(&self, before: usize, k: usize) -> Row
        requires few { before ≤ 8 }
        requires level { HasLevel (Some k) (length self.now.levels.now) }
        requires levels { length self.now.levels.now ≤ 8 }
        requires one_each { length self.now.counts.now ≡ length self.now.levels.now }
        ensures { result ≡ row_shown self.now.levels.now self.now.counts.now before k }
    {
        row(
            before as u8,
            k as u8,
            self.levels[k - 1],
            self.counts[k - 1],
        )
    }

    // The rows of all levels.
    fn all_rows(&self, heap: Global) -> Result<Vec<Row>, AllocError>
        requires levels { length self.now.levels.now ≤ 8 }
        requires one_each { length self.now.counts.now ≡ length self.now.levels.now }
        ensures { IfOk result (λ rows. rows.items ≡ rows_to (length self.now.levels.now) (row_shown self.now.levels.now self.now.counts.now)) }
    {
        let mut rows = Vec::new(heap);
        for k in 1..=self.levels.len() {
            rows.push(self.row(k - 1, k))?;
        }
        Ok(rows)
    }

    // The rows that are drawn: of one level, or of all.
    fn rows(&self, heap: Global, level: Option<usize>) -> Result<Vec<Row>, AllocError>
        requires level { HasLevel level (length self.now.levels.now) }
        requires levels { length self.now.levels.now ≤ 8 }
        requires one_each { length self.now.counts.now ≡ length self.now.levels.now }
        ensures { IfOk result (λ rows. rows.items ≡ rows_shown level self.now.levels.now self.now.counts.now) }
    {
        let Some(k) = level else {
            return self.all_rows(heap);
        };
        let mut rows = Vec::new(heap);
        rows.push(self.row(0, k))?;
        Ok(rows)
    }

    // The coarsest level that is drawn.
    fn top(&self, level: Option<usize>) -> usize
        ensures { result ≡ coarsest level (length self.now.levels.now) }
    {
        match level {
            Some(k) => k,
            None => self.levels.len(),
        }
    }

    // The picture.
    fn picture(&self, heap: Global, options: Options) -> Result<String, AllocError>
        requires size { 2 ≤ length self.now.vertices.now }
        requires level { HasLevel options.level (length self.now.levels.now) }
        requires levels { (1 ≤ length self.now.levels.now) × (length self.now.levels.now ≤ 8) }
        requires one_each { length self.now.counts.now ≡ length self.now.levels.now }
        ensures { IfOk result (λ s. string_bytes s ≡ family_text options self.now.vertices.now self.now.levels.now self.now.numbers.now self.now.counts.now self.now.total) }
    {
        let rows = self.rows(heap, options.level)?;
        let marks = marks(heap, self.vertices, self.numbers, self.top(options.level))?;
        let rows = rows.as_slice();
        let banded = if options.bands { rows } else { &[] };
        let ends = (self.vertices[0], self.vertices[self.vertices.len() - 1]);
        let many = rows.len().min(8) as u8;
        let picture = Picture {
            frame: Frame::of(ends, marks.as_slice(), banded, many),
            pixels: options.pixels,
            marks: marks.as_slice(),
            banded,
            rows,
            ends,
            place: many + 1,
            total: self.total,
        };
        picture.to_string(heap)
    }
}

// Whether one of m levels is asked for, or all of them.
fn has_level(level: Option<usize>, m: usize) -> bool
    ensures yes { T result → HasLevel level m }
    ensures no { HasLevel level m → T result }
{
    match level {
        Some(k) => 1 <= k && k <= m,
        None => true,
    }
}

// Whether bands can be drawn: the measure is segment.
fn has_band(measure: MeasureKind) -> bool
    ensures yes { T result → measure ≡ Segment }
    ensures no { measure ≡ Segment → T result }
{
    match measure {
        MeasureKind::Segment => true,
        MeasureKind::Strip | MeasureKind::Area => false,
    }
}

// Draws a family pack, or answers the marker's fault, that the options do not fit it, or that memory ran out.
pub fn show_pack(heap: Global, bytes: &[u8], options: Options) -> Result<String, ShowError>
    ensures { Shows bytes.now options result }
{
    let valid = read_valid(bytes)?;
    let job = valid.job;
    if !has_level(options.level, job.levels) {
        return Err(ShowError::NoLevel);
    }
    if options.bands && !has_band(job.measure) {
        return Err(ShowError::NoBand);
    }
    let family = Family {
        vertices: &valid.place.vertices[0..job.vertices],
        levels: &valid.place.levels[0..job.levels],
        numbers: &valid.chains.numbers[0..valid.vertices],
        counts: &valid.chains.counts[0..job.levels],
        total: valid.total,
    };
    Ok(family.picture(heap, options)?)
}

// The family pack that is drawn: the key of the job that a text says, or of a job pack, or else the bytes themselves.
pub fn family_pack(heap: Global, bytes: &[u8]) -> Result<Vec<u8>, DrawError>
    ensures { GivesFamily bytes.now result }
{
    match pack_text(heap, bytes) {
        Ok(job) => return key_pack(heap, job.as_slice()),
        Err(TextError::OutOfMemory) => return Err(DrawError::OutOfMemory),
        Err(TextError::Line(_, _)) => {}
    }
    match key_pack(heap, bytes) {
        Err(DrawError::Refused(_)) => Ok(bytes.to_vec(heap)?),
        key => key,
    }
}
