ghost use Rattle.std.specs.Prelude.{◌≡◌};
ghost use Rattle.tables.specs.Terms.{costs, grants};

use crate::grade_table::GradeTable;
use lines::level::Level;
use lines::line::Line;
use prices::price::Price;

// The terms of a search: a line, its levels, and the grades of its links, which are lent on their own.
#[derive(Clone, Copy)]
pub struct Terms<'a, 'b> {
    pub line: Line<'a>,
    pub levels: &'a [Level],
    pub grades: GradeTable<'b>,
}

impl<'a, 'b> Terms<'a, 'b> {
    // Whether level k allows the link i → v.
    pub fn grants(&self, k: usize, i: usize, v: usize) -> bool
        ensures { result ≡ grants self.now k i v }
    {
        let first = self.grades.first_level(i, v);
        first.is_some_and(|first| first <= k)
    }

    // What the link i → v costs at level k. Level 0 has the weight of level 1, and a level past the last the weight 0.
    pub fn cost<P: Price>(&self, k: usize, i: usize, v: usize) -> P
        ensures { result ≡ costs P.link self.now k i v }
    {
        let level = self.levels.get(k.saturating_sub(1));
        P::of_link(&self.line, i, v, level.map_or(0, |l| l.weight))
    }
}
