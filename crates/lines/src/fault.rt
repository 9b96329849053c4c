ghost use Rattle.std.specs.Prelude.{◌≡◌, Some};
ghost use Rattle.lines.specs.Fault.{cause_number, layer_number, fault, refused_text};

use std::fmt;

// Why a call refuses. Each cause has a number, by which it is printed.
#[derive(Clone, Copy, PartialEq, Eq, Debug)]
pub enum Cause {
    RunsOut = 1,
    WrongKind = 2,
    WrongLength = 3,
    LeftOver = 4,
    Coordinate = 5,
    Tolerance = 6,
    Weight = 7,
    Unknown = 8,
    Order = 9,
    Nesting = 10,
    Link = 11,
    Total = 12,
    Vertex = 13,
    Pinned = 14,
    NotPinned = 15,
    Full = 16,
    OtherCount = 17,
    Memory = 18,
    Level = 19,
    Limits = 20,
}

// The part of the library that found the fault.
#[derive(Clone, Copy, PartialEq, Eq, Debug)]
pub enum Layer {
    Pack = 1,
    Content = 2,
    Marker = 3,
    Sheet = 4,
}

// A refusal: why, which layer found it, and where. What place and spot count depends on the cause; where a place tells kinds apart (which
// limit, which memory), its numbers are the printed format.
#[derive(Clone, Copy, PartialEq, Eq, Debug)]
pub struct Fault {
    pub cause: Cause,
    pub layer: Layer,
    pub place: usize,
    pub spot: usize,
}

impl Fault {
    // The refusal of a cause at a place, with spot 0. A fault with a spot is a literal where it is made.
    pub fn new(cause: Cause, layer: Layer, place: usize) -> Fault
        ensures { result ≡ fault cause layer place }
    {
        Fault {
            cause,
            layer,
            place,
            spot: 0,
        }
    }
}

impl From<Cause> for u8 {
    ghost from_gives = { λ cause number. number ≡ cause_number cause };

    fn from(cause: Cause) -> u8 {
        cause as u8
    }
}

impl From<Layer> for u8 {
    ghost from_gives = { λ layer number. number ≡ layer_number layer };

    fn from(layer: Layer) -> u8 {
        layer as u8
    }
}

// The line of a refusal.
impl fmt::Display for Fault {
    ghost output = { λ fault. Some (refused_text fault) };

    fn fmt<W: fmt::Write>(&self, f: &mut fmt::Formatter<W>) -> fmt::Result {
        let cause = u8::from(self.cause);
        let layer = u8::from(self.layer);
        let place = self.place;
        let spot = self.spot;
        write!(f, "refused {cause} layer {layer} place {place} spot {spot}")
    }
}
