// The stays of the first least family, walked off a filled price table.
ghost use Rattle.std.specs.Prelude.{◌≡◌, ℕ, ◌+◌, ◌-◌, ◌<◌, ◌≤◌, ◌&&◌, ◌⊎◌, length, slice_index};
ghost use Rattle.families.specs.Least.{L, next, first_least};
ghost use Rattle.families.specs.Stay.{stay};
ghost use Rattle.tables.specs.Row.{candidate, TableHolds};
ghost use Rattle.tables.specs.Terms.{costs, grants};
ghost use Rattle.search.specs.Held.{holds_prop};
ghost use Rattle.search.specs.Walk.{stay_between};

use prices::price::Price;
use tables::price_table::PriceTable;
use tables::terms::Terms;

// The vertex v, if it lies before j, stays to level k. A function of its own, whose contract tells the walk what either branch leaves.
fn put_stay(stays: &mut [u8], v: usize, j: usize, k: usize)
    requires { (j ≤ length stays.old) × (k ≤ 8) }
    ensures here { v < j → slice_index stays.new v ≡ k }
    ensures others { (w : ℕ) → (w < v) ⊎ ((v < w) ⊎ (j ≤ w)) → slice_index stays.new w ≡ slice_index stays.old w }
{
    if v < j {
        stays[v] = k as u8;
    }
}

// The terms of a search, and the price table that was filled by them.
#[derive(Drop)]
pub(crate) struct Walk<'a, 'b, 'c, P: Price> {
    pub(crate) terms: Terms<'a, 'b>,
    pub(crate) prices: &'c PriceTable<'c, P>,
    ghost few: { (1 ≤ length terms.levels.now) × (length terms.levels.now ≤ 8) },
    ghost covers: { prices.now.n ≡ length terms.line.vertices.now },
    ghost filled: { TableHolds P.kind (costs P.link terms) (grants terms) prices.now.cells.now prices.now.n (length terms.levels.now) } by { holds_prop P.code P.kind (costs P.link terms) (grants terms) prices.now.cells.now prices.now.n (length terms.levels.now) },
}

// The level and the ends of a way are no fields: they change from call to call, so each method says its own bounds.
impl<'a, 'b, 'c, P: Price> Walk<'a, 'b, 'c, P> {
    // What it costs at least to go from i to j at level k when the first link is i → v.
    fn candidate(&self, k: usize, i: usize, j: usize, v: usize) -> P
        requires level { (1 ≤ k) × (k ≤ length self.now.terms.levels.now) }
        requires ends { (i < v) × ((v ≤ j) × (j < self.now.prices.now.n)) }
        ensures { result ≡ candidate P.kind (costs P.link self.now.terms) (grants self.now.terms) k i j v }
    {
        let cost = self.terms.cost::<P>(k, i, v);
        cost.join(self.prices.get(k - 1, i, v))
            .join(self.prices.get(k, v, j))
    }

    // Whether level k allows the link i → v, and the way from i over v to j costs no more than the best.
    // The best is handed in, since it is read once for all v; a struct of it with k, i and j would serve one call.
    fn attains(&self, k: usize, i: usize, j: usize, v: usize, best: P) -> bool
        requires level { (1 ≤ k) × (k ≤ length self.now.terms.levels.now) }
        requires ends { (i < v) × ((v ≤ j) × (j < self.now.prices.now.n)) }
        ensures { result ≡ (grants self.now.terms k i v && P.kind.not_dearer (candidate P.kind (costs P.link self.now.terms) (grants self.now.terms) k i j v) best) }
    {
        self.terms.grants(k, i, v) && self.candidate(k, i, j, v).not_dearer(best)
    }

    // The vertex after i on the way to j at level k.
    fn next_vertex(&self, k: usize, i: usize, j: usize) -> usize
        requires level { (1 ≤ k) × (k ≤ length self.now.terms.levels.now) }
        requires ends { (i < j) × (j < self.now.prices.now.n) }
        ensures { result ≡ next P.kind (costs P.link self.now.terms) (grants self.now.terms) (k - 1) i j }
    {
        let best = self.prices.get(k, i, j);
        (i + 1..j)
            .find(|v| self.attains(k, i, j, *v, best))
            .unwrap_or(j)
    }

    // Writes the stays of the vertices between i and j for the levels 1 to k; they are 0 before.
    fn mark_between(&self, stays: &mut [u8], k: usize, i: usize, j: usize)
        requires level { k ≤ length self.now.terms.levels.now }
        requires ends { (i ≤ j) × ((j < self.now.prices.now.n) × (self.now.prices.now.n ≤ length stays.old)) }
        requires none { (v : ℕ) → i < v → v < j → slice_index stays.old v ≡ 0 }
        ensures inside { (v : ℕ) → i < v → v < j → slice_index stays.new v ≡ stay_between P.kind (costs P.link self.now.terms) (grants self.now.terms) k i j v }
        ensures outside { (v : ℕ) → (v ≤ i) ⊎ (j ≤ v) → slice_index stays.new v ≡ slice_index stays.old v }
    {
        if k == 0 {
            return;
        }
        let mut at = i;
        // A walk, not a count: each step asks the table for the next vertex.
        while at < j {
            let next = self.next_vertex(k, at, j);
            put_stay(stays, next, j, k);
            self.mark_between(stays, k - 1, at, next);
            at = next;
        }
    }

    // Writes the stays of the first least family.
    pub(crate) fn mark_stays(&self, stays: &mut [u8])
        requires { length self.now.terms.line.vertices.now ≤ length stays.old }
        ensures inside { (v : ℕ) → v < length self.now.terms.line.vertices.now → slice_index stays.new v ≡ stay (first_least P.kind (costs P.link self.now.terms) (grants self.now.terms) (length self.now.terms.levels.now) (length self.now.terms.line.vertices.now)) (length self.now.terms.levels.now) v }
        ensures outside { (v : ℕ) → length self.now.terms.line.vertices.now ≤ v → slice_index stays.new v ≡ slice_index stays.old v }
    {
        let n = self.terms.line.count();
        let m = self.terms.levels.len();
        stays[..n].fill(0);
        stays[0] = m as u8;
        stays[n - 1] = m as u8;
        self.mark_between(stays, m, 0, n - 1);
    }

    // What the first least family costs.
    pub(crate) fn total(&self) -> P
        ensures { result ≡ L P.kind (costs P.link self.now.terms) (grants self.now.terms) (length self.now.terms.levels.now) 0 (length self.now.terms.line.vertices.now - 1) }
    {
        self.prices
            .get(self.terms.levels.len(), 0, self.terms.line.count() - 1)
    }
}
