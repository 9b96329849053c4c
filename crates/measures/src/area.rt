ghost use Rattle.std.specs.Prelude.{◌≡◌, ◌&&◌, nat_le};
ghost use Rattle.measures.specs.Area.{area, area_largest};
ghost use Rattle.measures.specs.Areas.{area_rules};

use crate::measure::{Measure, first_passing};
use lines::area::link_area;
use lines::level::Level;
use lines::line::Line;

// The area of the link is at most the tolerance.
#[derive(Clone, Copy)]
pub struct Area;

// Whether an area of this size is allowed at the tolerance t.
fn within(size: u64, t: u32) -> bool
    ensures { result ≡ (nat_le t area_largest && nat_le size t) }
{
    t <= <Area as Measure>::LARGEST && size <= t as u64
}

impl Measure for Area {
    const LARGEST: u32 = 2147483647;

    ghost LARGEST = { area_largest };

    ghost says = { λ _. area };

    ghost rules = { λ m. area_rules };

    fn allows(&self, line: &Line, i: usize, j: usize, t: u32) -> bool {
        // A tolerance above the largest is refused before the area is reckoned.
        t <= Self::LARGEST && line.is_link(i, j) && within(link_area(line, i, j), t)
    }

    // The area is reckoned once, for all levels.
    fn first_level(&self, line: &Line, levels: &[Level], i: usize, j: usize) -> Option<usize> {
        if !line.is_link(i, j) {
            return None;
        }
        let area = link_area(line, i, j);
        first_passing(levels, |t| within(area, t))
    }
}
