ghost use Rattle.std.specs.Prelude.{◌≡◌, Decides};
ghost use Rattle.lines.specs.Vertex.{InRange, in_range};

// A point with whole coordinates.
#[derive(Clone, Copy, PartialEq, Eq, Debug)]
pub struct Vertex {
    pub x: i16,
    pub y: i16,
}

impl Vertex {
    // Whether both coordinates lie from -16,384 to 16,383.
    pub fn in_range(self) -> bool
        ensures value { result ≡ in_range self }
        ensures decides { Decides result (InRange self) }
    {
        self.x >= -16384 && self.x <= 16383 && self.y >= -16384 && self.y <= 16383
    }
}
