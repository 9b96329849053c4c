// Who is told how far edits are.

// Who is told how many edits are performed.
pub trait Watch {
    // So many edits are performed.
    fn done(&mut self, edits: usize);
}

// Nobody is told.
#[derive(Clone, Copy)]
pub struct Unwatched;

impl Watch for Unwatched {
    fn done(&mut self, _edits: usize) {}
}
