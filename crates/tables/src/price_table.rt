ghost use Rattle.std.specs.Prelude.{◌≡◌, ◌*◌, ◌<◌, length, slice_index_or, slice_set};
ghost use Rattle.tables.specs.Price.{cell_place, price_at, price_put, ReadsBack, PriceRoom};
ghost use Rattle.tables.specs.Row.{KeptOutside, TableHolds};
ghost use Rattle.tables.specs.Terms.{costs, grants};

use crate::fill::Filling;
use crate::terms::Terms;
use prices::price::Price;

// A table of prices over lent memory, for n vertices: cell (k - 1) * n * n + i * n + j belongs to level k from i to j.
#[derive(Drop)]
pub struct PriceTable<'a, P> {
    cells: &'a mut [P],
    n: usize,
}

impl<'a, P: Price> PriceTable<'a, P> {
    // A table over these cells.
    pub fn over(cells: &'a mut [P], n: usize) -> PriceTable<'a, P>
        ensures cells { result.cells.now ≡ cells.old }
        ensures n { result.n ≡ n }
        ensures lender { result.cells.ghost_name ≡ cells.entry.ghost_name }
    {
        PriceTable { cells, n }
    }

    // Where the cell of level k from i to j lies in the memory, if it has it.
    fn place(&self, k: usize, i: usize, j: usize) -> Option<usize>
        ensures { result ≡ cell_place self.now.n k i j (length self.now.cells.now) }
    {
        let n = self.n;
        if k < 1 || i >= n || j >= n {
            return None;
        }
        let row = (k - 1).saturating_mul(n).saturating_add(i);
        let place = row.saturating_mul(n).saturating_add(j);
        if place < self.cells.len() {
            Some(place)
        } else {
            None
        }
    }

    // The price at level k from i to j. It is neutral at level 0, where i or j is no vertex, and past the memory.
    pub fn get(&self, k: usize, i: usize, j: usize) -> P
        ensures { result ≡ price_at P.kind.neutral self.now.cells.now self.now.n k i j }
    {
        match self.place(k, i, j) {
            Some(place) => self.cells[place],
            None => P::neutral(),
        }
    }

    // Puts a price at level k from i to j. It has no effect at level 0, where i or j is no vertex, and past the memory.
    pub fn put(&mut self, k: usize, i: usize, j: usize, price: P)
        ensures cells { self.new.cells.now ≡ price_put self.old.cells.now self.old.n k i j price }
        ensures reads_back { ReadsBack P.kind.neutral self.old.cells.now self.new.cells.now self.old.n k i j price }
        ensures n { self.new.n ≡ self.old.n }
        ensures lender { self.new.cells.ghost_name ≡ self.old.cells.ghost_name }
    {
        if let Some(place) = self.place(k, i, j) {
            self.cells[place] = price;
        }
    }

    // Fills the cells of all levels with the least totals between all vertices, by what the terms grant. Nothing is written where
    // n is above 256, where there are more than 8 levels, or where the memory is short.
    pub fn fill(&mut self, terms: &Terms)
        ensures filled { PriceRoom (length terms.now.levels.now) self.old.n (length self.old.cells.now) → TableHolds P.kind (costs P.link terms.now) (grants terms.now) self.new.cells.now self.old.n (length terms.now.levels.now) }
        ensures rest_kept { KeptOutside P.kind self.old.cells.now self.new.cells.now 0 (length terms.now.levels.now * (self.old.n * self.old.n)) }
        ensures short_kept { (PriceRoom (length terms.now.levels.now) self.old.n (length self.old.cells.now) → ⊥) → self.new.cells.now ≡ self.old.cells.now }
        ensures n { self.new.n ≡ self.old.n }
        ensures lender { self.new.cells.ghost_name ≡ self.old.cells.ghost_name }
    {
        let n = self.n;
        let m = terms.levels.len();
        if n > 256 || m > 8 || m * n * n > self.cells.len() {
            return;
        }
        let filling = Filling { terms: *terms, n };
        filling.fill_levels(self.cells);
    }
}
