ghost use Rattle.measures.specs.Segment.{near_segment};
ghost use Rattle.measures.specs.Rising.{near_segment_rises};

use crate::apart::Apart;
use crate::link::Link;
use crate::nearness::Nearness;
use crate::plane::Point;

// Every skipped vertex lies within the tolerance of the segment.
#[derive(Clone, Copy)]
pub struct Segment;

impl Nearness for Segment {
    ghost near = { near_segment };

    ghost rises = { near_segment_rises };

    // Behind the start and past the end the distance from there counts.
    fn apart(link: Link, v: Point) -> Apart {
        let along = link.along(v);
        if along <= 0 {
            Apart::from_end(link.p.distance(v))
        } else if along >= link.length {
            Apart::from_end(link.q.distance(v))
        } else {
            Apart::from_line(link.off_line(v))
        }
    }
}
