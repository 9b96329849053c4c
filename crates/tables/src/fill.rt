// What is needed to fill a price table. The filling itself, row by row, is in rows.rt.
ghost use Rattle.std.specs.Prelude.{◌≤◌, length};

use crate::terms::Terms;

// The filling of a price table for n vertices, by the terms of a search.
#[derive(Clone, Copy)]
pub(crate) struct Filling<'a, 'b> {
    pub(crate) terms: Terms<'a, 'b>,
    pub(crate) n: usize,
    ghost small: { (n ≤ 256) × (length terms.levels.now ≤ 8) },
}
