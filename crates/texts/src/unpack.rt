// From a job pack or a family pack to its text.
ghost use Rattle.std.specs.Prelude.{◌≡◌, ◌≤◌, take, IfOk, MatchResult, string_bytes};
ghost use Rattle.words.specs.Lines.{each_with};
ghost use Rattle.writer.specs.Job.{content};
ghost use Rattle.texts.specs.Text.{job_text};
ghost use Rattle.texts.specs.Unpack.{comments_text, text_in, RefusedAs, SaysPacked};

use crate::text::{chain_lines, job_text};
use drawings::drawing::DrawError;
use drawings::text::total_line;
use marker::place::ChainPlace;
use marker::reader::read_chains;
use packs::job::Job;
use packs::place::Place;
use packs::reader::read_family_head;
use std::alloc::{AllocError, Global};

// The text of a job that lies in a place.
fn placed_text(heap: Global, place: &Place, job: Job) -> Result<String, AllocError>
    requires { (job.vertices ≤ 256) × (job.levels ≤ 8) }
    ensures { IfOk result (λ s. string_bytes s ≡ job_text (content job.measure job.price (take job.vertices place.now.vertices) (take job.levels place.now.levels))) }
{
    let vertices = &place.vertices[0..job.vertices];
    let levels = &place.levels[0..job.levels];
    job_text(heap, job.measure, job.price, vertices, levels)
}

// The comments of the chains and the total of a family, of a line of n vertices and m levels; a job has none. The chains are not judged.
fn comments_text(heap: Global, records: &[u8], n: usize, m: usize) -> Result<String, DrawError>
    ensures { MatchResult result (λ s. comments_text n m records.now ≡ Ok (string_bytes s)) (RefusedAs (comments_text n m records.now)) }
{
    if records.is_empty() {
        return Ok(String::new(heap));
    }
    let mut place = ChainPlace::blank();
    let claim = read_chains(records, n, m, &mut place)?;
    let mut text = chain_lines(heap, &place.numbers[0..claim.vertices], &place.counts[0..m])?;
    let total = total_line(heap, claim.total)?;
    writeln!(text, "# {total}")?;
    Ok(text)
}

// The text of a job pack or of a family pack, or the reader's fault, or that memory ran out.
pub fn unpack_text(heap: Global, bytes: &[u8]) -> Result<String, DrawError>
    ensures answer { MatchResult result (λ s. text_in bytes.now ≡ Ok (string_bytes s)) (RefusedAs (text_in bytes.now)) }
    ensures packs_back { IfOk result (λ s. SaysPacked bytes.now (string_bytes s)) }
{
    let mut place = Place::blank();
    let (job, end) = read_family_head(bytes, &mut place)?;
    let mut text = placed_text(heap, &place, job)?;
    let comments = comments_text(heap, &bytes[end..], job.vertices, job.levels)?;
    text.push_str(&comments)?;
    Ok(text)
}
