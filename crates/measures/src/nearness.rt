// Measures that ask about each skipped vertex by itself: whatever says how far one vertex lies from a link is such a measure.
ghost use Rattle.std.specs.Prelude.{◌≡◌, ℕ, ◌<◌, ◌≤◌, ◌&&◌, length, nat_le, slice_index_or, All};
ghost use Rattle.lines.specs.Vertex.{origin};
ghost use Rattle.lines.specs.Line.{Lawful};
ghost use Rattle.lines.specs.declared.level.Level.{Level};
ghost use Rattle.measures.specs.Plane.{Near, each_skipped, skipped_largest};
ghost use Rattle.measures.specs.Apart.{apart_within, Found};
ghost use Rattle.measures.specs.Rising.{Rises};
ghost use Rattle.measures.specs.Skipped.{each_skipped_rules};

use crate::apart::Apart;
use crate::link::Link;
use crate::measure::{Measure, first_passing};
use crate::plane::Point;
use lines::level::Level;
use lines::line::Line;
use lines::vertex::Vertex;

// The largest tolerance of these measures.
const LARGEST: u32 = 32768;

// What such a measure asks about one vertex. `near` is its test, which stays true when the tolerance rises.
pub(crate) trait Nearness {
    ghost near: { Near };

    // How far v lies apart from the link, by which it is near or not at every tolerance.
    fn apart(link: Link, v: Point) -> Apart
        ensures { (t : ℕ) → near link.p.vertex link.q.vertex v.vertex t ≡ apart_within result link.p.vertex link.q.vertex t };

    ghost rises: { Rises near };
}

// A tolerance, or 0 in place of one above the largest of these measures, which allows nothing.
fn usable(t: u32) -> u32
    ensures bound { result ≤ skipped_largest }
    ensures kept { t ≤ skipped_largest → result ≡ t }
{
    if t <= LARGEST { t } else { 0 }
}

// The widest tolerance of the levels that is not above the largest of these measures: one above it allows nothing, and would only make the pass longer.
fn widest(levels: &[Level]) -> u32
    ensures bound { result ≤ skipped_largest }
    ensures covers { All (λ (l : Level). l.tolerance ≤ skipped_largest → l.tolerance ≤ result) levels.now }
{
    let tolerances = levels.iter().map(|level| usable(level.tolerance));
    tolerances.max().unwrap_or(0)
}

// The most that a skipped vertex of i → j lies apart from this link, or nothing as soon as one is not near at the tolerance t.
fn farthest<N: Nearness>(
    link: Link,
    vertices: &[Vertex],
    i: usize,
    j: usize,
    t: u32,
) -> Option<Apart>
    requires inside { (Lawful vertices.now) × ((i < j) × ((j < length vertices.now) × (t ≤ skipped_largest))) }
    requires start { link.p.vertex ≡ slice_index_or vertices.now i origin }
    requires end { link.q.vertex ≡ slice_index_or vertices.now j origin }
    ensures { Found N.near vertices.now i j t result }
{
    let limit = link.permits(t);
    let mut most = Apart::default();
    // A loop, no chain: each step joins the most so far, and ends the pass where it fails.
    for v in &vertices[i + 1..j] {
        let apart = N::apart(link, Point::new(*v));
        if !apart.within(limit) {
            return None;
        }
        most = most.or_more(apart);
    }
    Some(most)
}

// Whether a vertex may lie this far apart from the link at the tolerance t.
fn near_at(link: Link, apart: Apart, t: u32) -> bool
    ensures { result ≡ (nat_le t skipped_largest && apart_within apart link.p.vertex link.q.vertex t) }
{
    t <= LARGEST && apart.within(link.permits(t))
}

impl<N: Nearness> Measure for N {
    const LARGEST: u32 = LARGEST;

    ghost LARGEST = { skipped_largest };

    ghost says = { λ _. each_skipped skipped_largest N.near };

    ghost rules = { λ m. each_skipped_rules skipped_largest N.near N.rises };

    fn allows(&self, line: &Line, i: usize, j: usize, t: u32) -> bool {
        if t > LARGEST {
            return false;
        }
        let Some(link) = Link::of_line(line, i, j) else {
            return false;
        };
        farthest::<N>(link, line.vertices(), i, j, t).is_some()
    }

    // One pass over the skipped vertices, which stops outside the widest tolerance.
    fn first_level(&self, line: &Line, levels: &[Level], i: usize, j: usize) -> Option<usize> {
        let link = Link::of_line(line, i, j)?;
        let most = farthest::<N>(link, line.vertices(), i, j, widest(levels))?;
        first_passing(levels, |t| near_at(link, most, t))
    }
}
