ghost use Rattle.std.specs.Prelude.{◌≤◌, length};

use arrayvec::ArrayVec;

// The link i → j is approved from the tolerance t on.
#[derive(Clone, Copy, PartialEq, Eq, Debug, Default)]
pub struct Approval {
    pub i: usize,
    pub j: usize,
    pub t: u32,
}

// Up to 64 approvals.
#[derive(Drop)]
pub struct Approvals {
    pub(crate) list: ArrayVec<Approval, 64>,
    // kept by the list itself, and said here in its own words
    ghost sized: { length list.items ≤ 64 },
}
