use crate::kind::{MeasureKind, PriceKind};

// The structure of a job's three records: the lengths of the bodies of vertices and levels, and where the rest starts.
#[derive(Clone, Copy)]
pub struct Layout {
    pub vertices: usize,
    pub levels: usize,
    pub end: usize,
}

// A job that was read: its measure and price, and how many vertices and levels now lie in the place that was lent.
// No ghost field keeps the counts within the place: `summary` makes a Job of any content, and who makes one would owe the proof.
#[derive(Clone, Copy)]
pub struct Job {
    pub measure: MeasureKind,
    pub price: PriceKind,
    pub vertices: usize,
    pub levels: usize,
}
