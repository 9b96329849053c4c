// Plane geometry on vertices in range: no result is rounded and none can overflow.
ghost use Rattle.std.specs.Prelude.{◌≡◌, ◌*◌, ◌≤◌, ◌+ℤ◌, ◌-ℤ◌, ◌*ℤ◌, unsigned_abs};
ghost use Rattle.lines.specs.Vertex.{InRange};
ghost use Rattle.measures.specs.Plane.{squared};

use lines::exact::{difference, product};
use lines::vertex::Vertex;

// A vertex in range.
#[derive(Clone, Copy)]
pub(crate) struct Point {
    vertex: Vertex,
    ghost in_range: { InRange vertex },
}

impl Point {
    // The point of a vertex in range.
    pub(crate) fn new(vertex: Vertex) -> Point
        requires { InRange vertex }
        ensures { result.vertex ≡ vertex }
    {
        Point { vertex }
    }

    // The squared distance of two points.
    pub(crate) fn distance(self, other: Point) -> u64
        ensures { result ≡ unsigned_abs (squared self.vertex other.vertex) }
    {
        let way = Way::between(self, other);
        way.dot(way).unsigned_abs()
    }
}

// The way from one point to another.
#[derive(Clone, Copy)]
pub(crate) struct Way {
    x: i32,
    y: i32,
    ghost short: { (unsigned_abs x ≤ 32767) × (unsigned_abs y ≤ 32767) },
}

impl Way {
    // The way p → q.
    pub(crate) fn between(p: Point, q: Point) -> Way
        ensures x { result.x ≡ q.vertex.x -ℤ p.vertex.x }
        ensures y { result.y ≡ q.vertex.y -ℤ p.vertex.y }
    {
        Way {
            x: difference(p.vertex.x, q.vertex.x),
            y: difference(p.vertex.y, q.vertex.y),
        }
    }

    // The scalar product of two ways.
    pub(crate) fn dot(self, other: Way) -> i64
        ensures value { result ≡ (self.x *ℤ other.x) +ℤ (self.y *ℤ other.y) }
        ensures bound { unsigned_abs result ≤ 2147352578 }
    {
        product(self.x, other.x) + product(self.y, other.y)
    }

    // The square of the cross product of two ways.
    pub(crate) fn cross_squared(self, other: Way) -> u64
        ensures { result ≡ unsigned_abs ((self.x *ℤ other.y) -ℤ (self.y *ℤ other.x)) * unsigned_abs ((self.x *ℤ other.y) -ℤ (self.y *ℤ other.x)) }
    {
        let size = self.cross(other).unsigned_abs();
        size * size
    }

    // The cross product of two ways.
    pub(crate) fn cross(self, other: Way) -> i64
        ensures value { result ≡ (self.x *ℤ other.y) -ℤ (self.y *ℤ other.x) }
        ensures bound { unsigned_abs result ≤ 2147352578 }
    {
        product(self.x, other.y) - product(self.y, other.x)
    }
}
