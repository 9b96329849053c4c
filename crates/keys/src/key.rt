// The whole path from the bytes of a job pack to its key.
ghost use Rattle.std.specs.Prelude.{◌≡◌, ◌<◌, ◌≤◌, ◌++◌, length, take, map, IfOk, slice_index};
ghost use Rattle.std.specs.List.{AllByRecursion, concat};
ghost use Rattle.lines.specs.Line.{Lawful};
ghost use Rattle.packs.specs.Kind.{measure_largest};
ghost use Rattle.packs.specs.Job.{encoded};
ghost use Rattle.marker.specs.Pack.{measure_says};
ghost use Rattle.writer.specs.Job.{content};
ghost use Rattle.drawings.specs.Pack.{Drawable, ShowsPriced, Made};
ghost use Rattle.keys.specs.Key.{chains_off, drawing_records, Keys};

use drawings::drawing::{DrawError, Drawing};
use drawings::memory::filled;
use drawings::pack::draw_pack;
use lines::level::Level;
use lines::line::Line;
use packs::job::Job;
use packs::kind::{MeasureKind, PriceKind};
use packs::place::Place;
use packs::reader::read_job;
use search::chain::read_chain;
use std::alloc::{AllocError, Global};
use writer::family::{Family, write_family};

// The bytes of the longest family pack: that of 256 vertices and 8 chains that have them all.
const LONGEST: usize = 5_270;

// Chains end to end, the finest first, and how many vertices each has.
#[derive(Drop)]
struct Chains {
    numbers: Vec<u16>,
    counts: Vec<usize>,
}

// Adds the vertices of a chain to numbers.
fn append(numbers: &mut Vec<u16>, chain: &[usize]) -> Result<(), AllocError>
    requires { AllByRecursion (λ v. v < 65536) chain.now }
    ensures { IfOk result (λ _. numbers.new.items ≡ numbers.old.items ++ chain.now) }
{
    for v in chain {
        numbers.push(*v as u16)?;
    }
    Ok(())
}

// The chains of m levels, read off the stays of a line.
fn chains_off(heap: Global, stays: &[u8], m: usize) -> Result<Chains, AllocError>
    requires { length stays.now ≤ 256 }
    ensures numbers { IfOk result (λ chains. chains.numbers.items ≡ concat (chains_off m stays.now)) }
    ensures counts { IfOk result (λ chains. chains.counts.items ≡ map length (chains_off m stays.now)) }
{
    let mut numbers = Vec::new(heap);
    let mut counts = Vec::new(heap);
    for level in 1..=m {
        let chain = read_chain(heap, stays, level)?;
        append(&mut numbers, chain.as_slice())?;
        counts.push(chain.len())?;
    }
    Ok(Chains { numbers, counts })
}

// Writes a line and levels with their first least family, which a drawing shows.
fn write_drawn(
    heap: Global,
    measure: MeasureKind,
    price: PriceKind,
    line: &Line,
    levels: &[Level],
    drawing: &Drawing,
) -> Result<Vec<u8>, DrawError>
    requires levels { Drawable (measure_largest measure) levels.now }
    requires shown { ShowsPriced price (measure_says measure) line.now.vertices.now levels.now drawing.now }
    ensures { Made (λ pack. pack.items ≡ encoded (content measure price line.now.vertices.now levels.now) ++ drawing_records drawing.now) result }
{
    let chains = chains_off(heap, drawing.stays.as_slice(), drawing.levels)?;
    let family = Family {
        chains: chains.numbers.as_slice(),
        counts: chains.counts.as_slice(),
        total: drawing.form,
    };
    let mut pack = filled(heap, LONGEST, 0u8)?;
    let size = write_family(
        u8::from(measure),
        u8::from(price),
        line,
        levels,
        &family,
        pack.as_mut_slice(),
    )?;
    pack.truncate(size);
    Ok(pack)
}

// Writes the key of a job that lies in a place.
fn write_key(heap: Global, place: &Place, job: Job, drawing: &Drawing) -> Result<Vec<u8>, DrawError>
    requires few { (job.vertices ≤ 256) × (job.levels ≤ 8) }
    requires line { Lawful (take job.vertices place.now.vertices) }
    requires levels { Drawable (measure_largest job.measure) (take job.levels place.now.levels) }
    requires shown { ShowsPriced job.price (measure_says job.measure) (take job.vertices place.now.vertices) (take job.levels place.now.levels) drawing.now }
    ensures { Made (λ pack. pack.items ≡ encoded (content job.measure job.price (take job.vertices place.now.vertices) (take job.levels place.now.levels)) ++ drawing_records drawing.now) result }
{
    let n = job.vertices;
    let m = job.levels;
    let mut line = Line::built_in();
    line.make(&place.vertices[0..n])?;
    write_drawn(
        heap,
        job.measure,
        job.price,
        &line,
        &place.levels[0..m],
        drawing,
    )
}

// Writes the key of a job pack: the pack of its first least family; or answers the reader's fault, or that memory ran out.
pub fn key_pack(heap: Global, bytes: &[u8]) -> Result<Vec<u8>, DrawError>
    ensures { Keys bytes.now result }
{
    let drawing = draw_pack(heap, bytes)?;
    let mut place = Place::blank();
    let job = read_job(bytes, &mut place)?;
    write_key(heap, &place, job, &drawing)
}
