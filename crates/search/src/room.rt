ghost use Rattle.std.specs.Prelude.{◌≡◌, ◌≤◌, length};
ghost use Rattle.search.specs.Search.{judged_memory};

use lines::fault::{Cause, Fault, Layer};
use lines::line::Line;

// How many cells each memory has: grades, prices and stays.
#[derive(Clone, Copy, Debug)]
pub struct Room {
    pub grades: usize,
    pub prices: usize,
    pub stays: usize,
}

impl Room {
    // Room for 256 vertices and 8 levels, the most that a job has.
    pub const FULL: Room = Room {
        grades: 65_536,
        prices: 524_288,
        stays: 256,
    };

    // Judges the memory, for m levels and a line.
    pub(crate) fn check(&self, m: usize, line: &Line) -> Result<(), Fault>
        requires { m ≤ 8 }
        ensures { result ≡ judged_memory m (length line.now.vertices.now) self.now.grades self.now.prices self.now.stays }
    {
        let n = line.count();
        if n * n > self.grades {
            return Err(Fault::new(Cause::Memory, Layer::Sheet, 0));
        }
        if m * (n * n) > self.prices {
            return Err(Fault::new(Cause::Memory, Layer::Sheet, 1));
        }
        if n > self.stays {
            return Err(Fault::new(Cause::Memory, Layer::Sheet, 2));
        }
        Ok(())
    }
}
