// The rows of the price table, each filled over the rows further on and those of the next finer level.
ghost use Rattle.std.specs.Prelude.{◌≡◌, ℕ, ◌+◌, ◌*◌, ◌<◌, ◌≤◌, length, slice_index_or, Option};
ghost use Rattle.std.specs.Option.{unwrap_or};
ghost use Rattle.tables.specs.Terms.{costs, grants};
ghost use Rattle.tables.specs.Price.{row};
ghost use Rattle.tables.specs.Row.{head, room, IsLevel, Filled, Begun, OnlyRow, KeptOutside, TableHolds};

use crate::fill::Filling;
use prices::price::Price;

// Each cell of a row becomes what `change` makes of it and of the cell at its place in another row, if it makes anything.
// Tried with `zip`: its loop knows what each `&mut` held when it was given out, and nothing ties the row at the end to what was written.
fn update<P: Price, F: Fn(P, P) -> Option<P>>(row: &mut [P], other: &[P], change: F)
    requires callable { F.IsAlwaysCallable change }
    requires room { length row.old ≤ length other.now }
    ensures { (f : P → P → P) → ((x y : P) (r : Option P) → F.post change x y r → unwrap_or r x ≡ f x y) → (x : ℕ) → x < length row.old → slice_index_or row.new x P.kind.neutral ≡ f (slice_index_or row.old x P.kind.neutral) (slice_index_or other.now x P.kind.neutral) }
{
    for (j, cell) in row.iter_mut().enumerate() {
        if let Some(new) = change(*cell, other[j]) {
            *cell = new;
        }
    }
}

// A filling holds no cells: each method that writes them would then say beside its own clauses that terms, n and the lender stay.
// Level and vertex are no struct and no fields: they change from call to call, and their bounds are one word each.
impl<'a, 'b> Filling<'a, 'b> {
    // Where the row of level k from vertex i begins.
    fn start(&self, k: usize, i: usize) -> usize
        requires { (IsLevel self.now k) × (i < self.now.n) }
        ensures value { result ≡ row self.now.n k i }
        ensures inside { result + self.now.n ≤ room self.now }
    {
        (k - 1) * self.n * self.n + i * self.n
    }

    // The cells of level k from vertex i, up to that vertex, become neutral.
    fn clear_row<P: Price>(&self, cells: &mut [P], k: usize, i: usize)
        requires level { IsLevel self.now k }
        requires ends { i < self.now.n }
        requires room { room self.now ≤ length cells.old }
        ensures cleared { (j : ℕ) → j ≤ i → slice_index_or cells.new (row self.now.n k i + j) P.kind.neutral ≡ P.kind.neutral }
        ensures outside { OnlyRow P.kind self.now cells.old cells.new k i }
    {
        let own = self.start(k, i);
        let none = P::neutral();
        cells[own..own + i + 1].fill_with(|| none);
    }

    // The cells of level k from vertex i, from vertex v on, become what `change` makes of them and of those from v.
    fn update_row<P: Price, F: Fn(P, P) -> Option<P>>(
        &self,
        cells: &mut [P],
        k: usize,
        i: usize,
        v: usize,
        change: F,
    )
        requires callable { F.IsAlwaysCallable change }
        requires level { IsLevel self.now k }
        requires ends { (i < v) × (v < self.now.n) }
        requires room { room self.now ≤ length cells.old }
        ensures inside { (f : P → P → P) → ((x y : P) (r : Option P) → F.post change x y r → unwrap_or r x ≡ f x y) → (j : ℕ) → v ≤ j → j < self.now.n → slice_index_or cells.new (row self.now.n k i + j) P.kind.neutral ≡ f (slice_index_or cells.old (row self.now.n k i + j) P.kind.neutral) (slice_index_or cells.old (row self.now.n k v + j) P.kind.neutral) }
        ensures outside { KeptOutside P.kind cells.old cells.new (row self.now.n k i + v) (row self.now.n k i + self.now.n) }
    {
        let own = self.start(k, i);
        let from = self.start(k, v);
        let (front, back) = cells.split_at_mut(from + v);
        update(&mut front[own + v..own + self.n], back, change);
    }

    // The price of the link from i to v at level k, joined with what lies under it at the next finer level.
    fn head<P: Price>(&self, cells: &[P], k: usize, i: usize, v: usize) -> P
        requires level { IsLevel self.now k }
        requires ends { (i < self.now.n) × (v < self.now.n) }
        requires room { room self.now ≤ length cells.now }
        ensures { result ≡ head P.kind (costs P.link self.now.terms k i v) cells.now self.now.n k i v }
    {
        let cost = self.terms.cost::<P>(k, i, v);
        if k <= 1 {
            return cost.join(P::neutral());
        }
        cost.join(cells[self.start(k - 1, i) + v])
    }

    // Puts the candidates whose first link goes to the next vertex into the row of level k from i; what lies before is neutral.
    fn put_candidates<P: Price>(&self, cells: &mut [P], k: usize, i: usize)
        requires level { IsLevel self.now k }
        requires ends { i + 1 < self.now.n }
        requires room { room self.now ≤ length cells.old }
        requires before { Filled P.kind P.link self.now cells.old k (i + 1) }
        requires cleared { (j : ℕ) → j ≤ i → slice_index_or cells.old (row self.now.n k i + j) P.kind.neutral ≡ P.kind.neutral }
        ensures after { Begun P.kind P.link self.now cells.new k i (i + 2) }
        ensures outside { OnlyRow P.kind self.now cells.old cells.new k i }
    {
        let head = self.head(cells, k, i, i + 1);
        self.update_row(cells, k, i, i + 1, |_, further| Some(head.join(further)));
    }

    // Takes the candidates whose first link is i → v into the row of level k from i, where the level allows that link.
    fn take_candidates<P: Price>(&self, cells: &mut [P], k: usize, i: usize, v: usize)
        requires level { IsLevel self.now k }
        requires ends { (i + 1 < v) × (v < self.now.n) }
        requires room { room self.now ≤ length cells.old }
        requires before { Begun P.kind P.link self.now cells.old k i v }
        ensures after { Begun P.kind P.link self.now cells.new k i (v + 1) }
        ensures outside { OnlyRow P.kind self.now cells.old cells.new k i }
    {
        if !self.terms.grants(k, i, v) {
            return;
        }
        let head = self.head(cells, k, i, v);
        self.update_row(cells, k, i, v, |best, further| {
            let candidate = head.join(further);
            if best.not_dearer(candidate) {
                None
            } else {
                Some(candidate)
            }
        });
    }

    // Fills the row of level k from vertex i, over the rows of the vertices past i and those of the finer levels.
    fn fill_row<P: Price>(&self, cells: &mut [P], k: usize, i: usize)
        requires level { IsLevel self.now k }
        requires ends { i < self.now.n }
        requires room { room self.now ≤ length cells.old }
        requires before { Filled P.kind P.link self.now cells.old k (i + 1) }
        ensures after { Filled P.kind P.link self.now cells.new k i }
        ensures outside { KeptOutside P.kind cells.old cells.new 0 (room self.now) }
    {
        self.clear_row(cells, k, i);
        if i + 1 == self.n {
            return;
        }
        self.put_candidates(cells, k, i);
        // v is a vertex, and indexes no slice here.
        for v in i + 2..self.n {
            self.take_candidates(cells, k, i, v);
        }
    }

    // Fills the rows of level k, from the line's end to its start.
    fn fill_level<P: Price>(&self, cells: &mut [P], k: usize)
        requires level { IsLevel self.now k }
        requires room { room self.now ≤ length cells.old }
        requires before { Filled P.kind P.link self.now cells.old k self.now.n }
        ensures after { Filled P.kind P.link self.now cells.new k 0 }
        ensures outside { KeptOutside P.kind cells.old cells.new 0 (room self.now) }
    {
        // i is a vertex, and indexes no slice here.
        for i in (0..self.n).rev() {
            self.fill_row(cells, k, i);
        }
    }

    // Fills the rows of all levels, the finest first.
    pub(crate) fn fill_levels<P: Price>(&self, cells: &mut [P])
        requires { room self.now ≤ length cells.old }
        ensures after { TableHolds P.kind (costs P.link self.now.terms) (grants self.now.terms) cells.new self.now.n (length self.now.terms.levels.now) }
        ensures outside { KeptOutside P.kind cells.old cells.new 0 (room self.now) }
    {
        // k is a level, and indexes no slice here.
        for k in 1..=self.terms.levels.len() {
            self.fill_level(cells, k);
        }
    }
}
