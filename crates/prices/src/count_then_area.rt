ghost use Rattle.std.specs.Prelude.{◌≡◌};
ghost use Rattle.prices.specs.CountThenArea.{count_then_area_kind, count_then_area_link, form_of};
ghost use Rattle.std.proofs.Common.{rules};

use crate::price::Price;
use lines::area::link_area;
use lines::line::Line;

// The price that counts links by their weights and then adds up their areas. A count of 4,294,967,295 stands for the largest area too.
#[derive(Clone, Copy, Debug)]
pub struct CountThenArea {
    pub count: u32,
    pub area: u64,
}

impl CountThenArea {
    // The area of the form: the largest one where the count is at its ceiling.
    fn form_area(self) -> u64
        ensures { result ≡ (form_of self).1 }
    {
        if self.count == u32::MAX {
            u64::MAX
        } else {
            self.area
        }
    }
}

// An `impl` of its own: it shares but the frame with that of `Count`.
impl Price for CountThenArea {
    ghost kind = { count_then_area_kind };

    ghost link = { count_then_area_link };

    ghost rules = { Prim.search rules };

    ghost neutral_without_link = { Prim.search rules };

    fn neutral() -> CountThenArea {
        CountThenArea { count: 0, area: 0 }
    }

    fn join(self, other: CountThenArea) -> CountThenArea {
        CountThenArea {
            count: self.count.saturating_add(other.count),
            area: self.area.saturating_add(other.area),
        }
    }

    // The order of the forms, those of pairs; a smaller count decides it before the forms are made. The interface says why it is no `PartialOrd`.
    fn not_dearer(self, other: CountThenArea) -> bool {
        self.count < other.count || self.form() <= other.form()
    }

    fn of_link(line: &Line, i: usize, j: usize, weight: u32) -> CountThenArea {
        if line.is_link(i, j) {
            CountThenArea {
                count: weight,
                area: link_area(line, i, j),
            }
        } else {
            CountThenArea::neutral()
        }
    }

    fn form(self) -> (u32, u64) {
        (self.count, self.form_area())
    }
}
