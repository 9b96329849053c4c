// Lines drawn from a fixed start.
use lines::vertex::Vertex;
use std::alloc::{AllocError, Global};

// Numbers drawn one after the other.
#[derive(Clone, Copy)]
struct Draws {
    state: u64,
}

impl From<u64> for Draws {
    fn from(start: u64) -> Draws {
        Draws { state: start }
    }
}

impl Draws {
    // The next number, 0 to 127. No `Iterator`: the draws never end, and it would owe how many are left.
    fn next(&mut self) -> u8 {
        self.state = self
            .state
            .wrapping_mul(6364136223846793005)
            .wrapping_add(1442695040888963407);
        ((self.state >> 33) & 127) as u8
    }
}

// A walk that goes on to the right and up and down.
fn walk(draws: &mut Draws, vertices: &mut [Vertex]) {
    let mut x: i16 = -16000;
    let mut y: i16 = 0;
    for v in vertices.iter_mut() {
        *v = Vertex { x, y };
        x = x.saturating_add(i16::from(draws.next())).min(16383);
        y = y
            .saturating_add(i16::from(draws.next()))
            .saturating_sub(63)
            .clamp(-16384, 16383);
    }
}

// All vertices of so many lines of n vertices, end to end.
pub fn draw_lines(heap: Global, lines: usize, n: usize) -> Result<Vec<Vertex>, AllocError> {
    let mut all = vec![in heap; Vertex { x: 0, y: 0 }; lines.saturating_mul(n)]?;
    let mut draws = Draws::from(20261118);
    for part in all.as_mut_slice().chunks_mut(n.max(1)) {
        walk(&mut draws, part);
    }
    Ok(all)
}
