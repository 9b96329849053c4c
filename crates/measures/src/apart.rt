// How far a vertex lies from a link, in squares.
ghost use Rattle.std.specs.Prelude.{◌≡◌, max, ◌&&◌, nat_le};

// The squared distance from the end that counts, and the squared cross product with the link where no end counts.
#[derive(Clone, Copy, Default)]
pub(crate) struct Apart {
    pub(crate) far: u64,
    pub(crate) off: u64,
}

impl Apart {
    // So far from an end that counts.
    pub(crate) fn from_end(far: u64) -> Apart
        ensures { result ≡ record { far = far; off = 0 } }
    {
        Apart { far, off: 0 }
    }

    // So far off the straight line, where no end counts.
    pub(crate) fn from_line(off: u64) -> Apart
        ensures { result ≡ record { far = 0; off = off } }
    {
        Apart { far: 0, off }
    }

    // Whether both numbers are at most those of the limit.
    pub(crate) fn within(self, limit: Apart) -> bool
        ensures { result ≡ (nat_le self.far limit.far && nat_le self.off limit.off) }
    {
        self.far <= limit.far && self.off <= limit.off
    }

    // The larger of each number.
    pub(crate) fn or_more(self, other: Apart) -> Apart
        ensures far { result.far ≡ max self.far other.far }
        ensures off { result.off ≡ max self.off other.off }
    {
        Apart {
            far: self.far.max(other.far),
            off: self.off.max(other.off),
        }
    }
}
