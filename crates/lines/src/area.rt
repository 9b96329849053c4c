ghost use Rattle.std.specs.Prelude.{◌≡◌, ◌≤◌, unsigned_abs};
ghost use Rattle.lines.specs.Area.{step, link_area};

use crate::exact::product;
use crate::line::Line;
use crate::vertex::Vertex;

// The step from p to q: px * qy - qx * py.
fn step(p: Vertex, q: Vertex) -> i64
    ensures value { result ≡ step p q }
    ensures bound { unsigned_abs result ≤ 2147483648 }
{
    product(p.x as i32, q.y as i32) - product(q.x as i32, p.y as i32)
}

// The area of the link from i to j; 0 for a pair that is no link.
pub fn link_area(line: &Line, i: usize, j: usize) -> u64
    ensures { result ≡ link_area line.now.vertices.now i j }
{
    if !line.is_link(i, j) {
        return 0;
    }
    let vertices = line.vertices();
    let mut sum = 0;
    for ends in vertices[i..=j].windows(2) {
        sum += step(ends[0], ends[1]);
    }
    sum += step(vertices[j], vertices[i]);
    sum.unsigned_abs()
}
