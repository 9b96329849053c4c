ghost use Rattle.measures.specs.Strip.{near_line};
ghost use Rattle.measures.specs.Rising.{near_line_rises};

use crate::apart::Apart;
use crate::link::Link;
use crate::nearness::Nearness;
use crate::plane::Point;

// Every skipped vertex lies within the tolerance of the straight line through the ends.
#[derive(Clone, Copy)]
pub struct Strip;

impl Nearness for Strip {
    ghost near = { near_line };

    ghost rises = { near_line_rises };

    // Where both ends lie at one place, the distance from there counts.
    fn apart(link: Link, v: Point) -> Apart {
        if link.length == 0 {
            Apart::from_end(link.p.distance(v))
        } else {
            Apart::from_line(link.off_line(v))
        }
    }
}
