ghost use Rattle.std.specs.Prelude.{◌≡◌, ℕ, ◌+◌, ◌*◌, ◌/◌, ◌≤◌, List, length, take, drop, MatchResult};
ghost use Rattle.packs.specs.Job.{vertex_from, level_from, items, Within, layout_in, vertices_in, levels_in, judged_content, content_in, job_in, head_in, content_of, summed_up, summed_up_to, AcceptsJobs, AcceptsHeads, placed_vertices, placed_levels};

use crate::bytes::{u8_at, u16_at, u32_at};
use crate::job::{Job, Layout};
use crate::kind::{MeasureKind, PriceKind};
use crate::place::Place;
use crate::record::{Due, body_length};
use lines::fault::{Cause, Fault, Layer};
use lines::level::{Level, check_levels};
use lines::line::Line;
use lines::vertex::Vertex;

// What a pack holds many of, each as bytes of one width.
trait Item: Copy {
    const WIDTH: usize;

    ghost WIDTH: { ℕ };

    ghost from_bytes: { List ℕ → Self };

    // The item that bytes begin with.
    fn read(bytes: &[u8]) -> Self
        requires { WIDTH ≤ length bytes.now }
        ensures { result ≡ from_bytes bytes.now };
}

impl Item for Vertex {
    const WIDTH: usize = 4;

    ghost WIDTH = { 4 };

    ghost from_bytes = { vertex_from };

    fn read(bytes: &[u8]) -> Vertex {
        Vertex {
            x: u16_at(bytes, 0).cast_signed(),
            y: u16_at(bytes, 2).cast_signed(),
        }
    }
}

impl Item for Level {
    const WIDTH: usize = 8;

    ghost WIDTH = { 8 };

    ghost from_bytes = { level_from };

    fn read(bytes: &[u8]) -> Level {
        Level {
            tolerance: u32_at(bytes, 0),
            weight: u32_at(bytes, 4),
        }
    }
}

// Fills `out` with the items that bytes begin with.
// Tried with `zip` and `chunks_exact`: when that loop is over, nothing is known of what went through the `iter_mut` in it.
fn read_items<T: Item>(bytes: &[u8], out: &mut [T])
    requires { T.Item.WIDTH * length out.old ≤ length bytes.now }
    ensures { out.new ≡ items T.Item.WIDTH T.Item.from_bytes (length out.old) bytes.now }
{
    let mut rest = bytes;
    for item in out.iter_mut() {
        *item = T::read(rest);
        rest = &rest[T::WIDTH..];
    }
}

// The first three records of a pack, whose structure is right.
#[derive(Clone, Copy)]
struct Head<'a> {
    bytes: &'a [u8],
    layout: Layout,
    ghost within: { Within bytes.now layout },
}

impl<'a> Head<'a> {
    // The structure of the first three records, or the first fault.
    fn open(bytes: &'a [u8]) -> Result<Head<'a>, Fault>
        ensures { MatchResult result (λ head. (head.bytes ≡ bytes.entry) × (layout_in bytes.now ≡ Ok head.layout)) (λ fault. layout_in bytes.now ≡ Err fault) }
    {
        body_length(bytes, 0, Due::Numbers)?;
        let vertices = body_length(bytes, 8, Due::Vertices)?;
        let levels = body_length(bytes, 14 + vertices, Due::Levels)?;
        let layout = Layout {
            vertices,
            levels,
            end: 20 + vertices + levels,
        };
        Ok(Head { bytes, layout })
    }

    // The vertices and levels of the records, in the front of a place.
    fn decode(&self) -> Place
        ensures vertices { take (self.now.layout.vertices / 4) result.vertices ≡ vertices_in self.now.bytes.now self.now.layout }
        ensures levels { take (self.now.layout.levels / 8) result.levels ≡ levels_in self.now.bytes.now self.now.layout }
    {
        let layout = self.layout;
        let mut place = Place::blank();
        read_items(
            &self.bytes[14..],
            &mut place.vertices[0..layout.vertices / 4],
        );
        read_items(
            &self.bytes[20 + layout.vertices..],
            &mut place.levels[0..layout.levels / 8],
        );
        place
    }

    // The content of the records, put into the place; a refusal leaves the place as it stood.
    fn content(&self, place: &mut Place) -> Result<Job, Fault>
        ensures answer { result ≡ summed_up (content_in self.now.bytes.now self.now.layout) }
        ensures vertices { place.new.vertices ≡ placed_vertices (content_in self.now.bytes.now self.now.layout) place.old.vertices }
        ensures levels { place.new.levels ≡ placed_levels (content_in self.now.bytes.now self.now.layout) place.old.levels }
    {
        // The project rules `let .. else` for these two lookups.
        let Ok(measure) = MeasureKind::try_from(u8_at(self.bytes, 6)) else {
            return Err(Fault::new(Cause::Unknown, Layer::Content, 0));
        };
        let Ok(price) = PriceKind::try_from(u8_at(self.bytes, 7)) else {
            return Err(Fault::new(Cause::Unknown, Layer::Content, 1));
        };
        let n = self.layout.vertices / 4;
        let m = self.layout.levels / 8;
        let read = self.decode();
        judge(&read.vertices[0..n], &read.levels[0..m], measure)?;
        place.put(&read.vertices[0..n], &read.levels[0..m]);
        Ok(Job {
            measure,
            price,
            vertices: n,
            levels: m,
        })
    }
}

// Judges the vertices as a line, then the levels.
fn judge(vertices: &[Vertex], levels: &[Level], measure: MeasureKind) -> Result<(), Fault>
    ensures { result ≡ judged_content measure vertices.now levels.now }
{
    let mut line = Line::built_in();
    line.make(vertices)?;
    check_levels(levels, measure.largest(), Layer::Content)
}

// Reads a job pack into the place. A refusal leaves the place as it stood.
#[tactic(auto, using(crate::proofs::Accepting::accepts_jobs))]
pub fn read_job(bytes: &[u8], place: &mut Place) -> Result<Job, Fault>
    ensures answer { result ≡ summed_up (job_in bytes.now) }
    ensures accepts_exactly_lawful_jobs { AcceptsJobs bytes.now }
    ensures vertices { place.new.vertices ≡ placed_vertices (job_in bytes.now) place.old.vertices }
    ensures levels { place.new.levels ≡ placed_levels (job_in bytes.now) place.old.levels }
{
    let head = Head::open(bytes)?;
    let end = head.layout.end;
    if end != bytes.len() {
        return Err(Fault::new(Cause::LeftOver, Layer::Pack, end));
    }
    head.content(place)
}

// Reads the beginning of a family pack into the place, and answers where the rest starts. A refusal leaves the place as it stood.
#[tactic(auto, using(crate::proofs::Accepting::accepts_heads))]
pub fn read_family_head(bytes: &[u8], place: &mut Place) -> Result<(Job, usize), Fault>
    ensures answer { result ≡ summed_up_to (head_in bytes.now) }
    ensures accepts_exactly_lawful_heads { AcceptsHeads bytes.now }
    ensures vertices { place.new.vertices ≡ placed_vertices (content_of (head_in bytes.now)) place.old.vertices }
    ensures levels { place.new.levels ≡ placed_levels (content_of (head_in bytes.now)) place.old.levels }
{
    let head = Head::open(bytes)?;
    let job = head.content(place)?;
    Ok((job, head.layout.end))
}
