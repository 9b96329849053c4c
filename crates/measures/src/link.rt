// A link, and how far a point lies from its ends and off its straight line.
ghost use Rattle.std.specs.Prelude.{◌≡◌, ◌*◌, ◌≤◌, ◌-ℤ◌, unsigned_abs, true, false, slice_index_or, IfSome, IfNone};
ghost use Rattle.lines.specs.Vertex.{origin};
ghost use Rattle.lines.specs.Line.{is_link};
ghost use Rattle.measures.specs.Plane.{dot, cross, squared, skipped_largest};

use crate::apart::Apart;
use crate::plane::{Point, Way};
use lines::line::Line;

// The link p → q, with the numbers that are the same for each skipped vertex.
#[derive(Clone, Copy)]
pub(crate) struct Link {
    pub(crate) p: Point,
    pub(crate) q: Point,
    way: Way,
    // the square of the length
    pub(crate) length: i64,
    ghost leads: { (way.x ≡ q.vertex.x -ℤ p.vertex.x) × (way.y ≡ q.vertex.y -ℤ p.vertex.y) },
    ghost measured: { length ≡ squared p.vertex q.vertex },
    ghost short: { unsigned_abs length ≤ 2147352578 },
}

impl Link {
    // The link p → q.
    pub(crate) fn new(p: Point, q: Point) -> Link
        ensures p { result.p ≡ p }
        ensures q { result.q ≡ q }
    {
        let way = Way::between(p, q);
        Link {
            p,
            q,
            way,
            length: way.dot(way),
        }
    }

    // The link i → j of a line; none for a pair that is no link.
    pub(crate) fn of_line(line: &Line, i: usize, j: usize) -> Option<Link>
        ensures none { IfNone result (false ≡ is_link line.now.vertices.now i j) }
        ensures link { IfSome result (λ l. true ≡ is_link line.now.vertices.now i j) }
        ensures start { IfSome result (λ l. l.p.vertex ≡ slice_index_or line.now.vertices.now i origin) }
        ensures end { IfSome result (λ l. l.q.vertex ≡ slice_index_or line.now.vertices.now j origin) }
    {
        if !line.is_link(i, j) {
            return None;
        }
        let vertices = line.vertices();
        Some(Link::new(Point::new(vertices[i]), Point::new(vertices[j])))
    }

    // How far apart from the link a vertex may lie at the tolerance t.
    pub(crate) fn permits(self, t: u32) -> Apart
        requires { t ≤ skipped_largest }
        ensures far { result.far ≡ t * t }
        ensures off { result.off ≡ t * t * unsigned_abs (squared self.p.vertex self.q.vertex) }
    {
        let reach = t as u64 * t as u64;
        Apart {
            far: reach,
            off: reach * self.length.unsigned_abs(),
        }
    }

    // How far along the link v lies, times the length of the link; below 0 where v lies behind p.
    pub(crate) fn along(self, v: Point) -> i64
        ensures { result ≡ dot self.p.vertex self.q.vertex v.vertex }
    {
        self.way.dot(Way::between(self.p, v))
    }

    // The squared cross product of the link and the way p → v.
    pub(crate) fn off_line(self, v: Point) -> u64
        ensures { result ≡ unsigned_abs (cross self.p.vertex self.q.vertex v.vertex) * unsigned_abs (cross self.p.vertex self.q.vertex v.vertex) }
    {
        self.way.cross_squared(Way::between(self.p, v))
    }
}
