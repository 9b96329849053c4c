// The bounding box of a line.
ghost use Rattle.std.specs.Prelude.{◌≡◌};
ghost use Rattle.pictures.specs.Bounds.{at_vertex, with_vertex, around, wide, high};

use crate::picture::Mark;
use lines::vertex::Vertex;

// The smallest box that holds a line.
#[derive(Clone, Copy, PartialEq, Eq, Debug)]
pub struct Bounds {
    pub left: i16,
    pub right: i16,
    pub bottom: i16,
    pub top: i16,
}

impl Bounds {
    // The box that holds one vertex.
    pub fn at(v: Vertex) -> Bounds
        ensures { result ≡ at_vertex v }
    {
        Bounds {
            left: v.x,
            right: v.x,
            bottom: v.y,
            top: v.y,
        }
    }

    // The smallest box that holds this one and a vertex.
    pub fn with(self, v: Vertex) -> Bounds
        ensures { result ≡ with_vertex self v }
    {
        Bounds {
            left: self.left.min(v.x),
            right: self.right.max(v.x),
            bottom: self.bottom.min(v.y),
            top: self.top.max(v.y),
        }
    }

    // The smallest box that holds this one and the vertices of marks.
    pub fn around(self, marks: &[Mark]) -> Bounds
        ensures { result ≡ around self marks.now }
    {
        let mut bounds = self;
        for mark in marks {
            bounds = bounds.with(mark.vertex);
        }
        bounds
    }

    // How far it is from left to right.
    pub fn wide(self) -> u16
        ensures { result ≡ wide self }
    {
        self.right.abs_diff(self.left)
    }

    // How far it is from bottom to top.
    pub fn high(self) -> u16
        ensures { result ≡ high self }
    {
        self.top.abs_diff(self.bottom)
    }
}
