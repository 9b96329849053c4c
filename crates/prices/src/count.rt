ghost use Rattle.prices.specs.Count.{count_kind, count_link};
ghost use Rattle.std.proofs.Common.{rules};

use crate::price::Price;
use lines::line::Line;

// The price that counts links by their weights. It stops at 4,294,967,295.
#[derive(Clone, Copy, Debug)]
pub struct Count {
    pub count: u32,
}

impl Price for Count {
    ghost kind = { count_kind };

    ghost link = { count_link };

    ghost rules = { Prim.search rules };

    ghost neutral_without_link = { Prim.search rules };

    fn neutral() -> Count {
        Count { count: 0 }
    }

    fn join(self, other: Count) -> Count {
        Count {
            count: self.count.saturating_add(other.count),
        }
    }

    // The order of the numbers; the interface says why it is no `PartialOrd`.
    fn not_dearer(self, other: Count) -> bool {
        self.count <= other.count
    }

    fn of_link(line: &Line, i: usize, j: usize, weight: u32) -> Count {
        if line.is_link(i, j) {
            Count { count: weight }
        } else {
            Count::neutral()
        }
    }

    fn form(self) -> (u32, u64) {
        (self.count, 0)
    }
}
