ghost use Rattle.std.specs.Prelude.{◌≡◌, ◌≤◌, ◌++◌, length, drop, replicate};
ghost use Rattle.lines.specs.Vertex.{origin};
ghost use Rattle.lines.specs.Level.{level};

use lines::level::Level;
use lines::vertex::Vertex;

// A place for a job: whole arrays of 256 vertices and 8 levels that the caller lends, for readers use no heap.
// They carry no counts: readers promise that what lies past what they read stays as it was.
#[derive(Drop)]
pub struct Place {
    pub vertices: [Vertex; 256],
    pub levels: [Level; 8],
    ghost sized: { (length vertices ≡ 256) × (length levels ≡ 8) },
}

impl Place {
    // A place filled with the vertex (0, 0) and levels of tolerance and weight 0.
    pub fn blank() -> Place
        ensures vertices { result.vertices ≡ replicate 256 origin }
        ensures levels { result.levels ≡ replicate 8 (level 0 0) }
    {
        Place {
            vertices: [Vertex { x: 0, y: 0 }; 256],
            levels: [Level {
                tolerance: 0,
                weight: 0,
            }; 8],
        }
    }

    // Puts vertices and levels into the place; what lies past them stays.
    pub(crate) fn put(&mut self, vertices: &[Vertex], levels: &[Level])
        requires { (length vertices.now ≤ 256) × (length levels.now ≤ 8) }
        ensures vertices { self.new.vertices ≡ vertices.now ++ drop (length vertices.now) self.old.vertices }
        ensures levels { self.new.levels ≡ levels.now ++ drop (length levels.now) self.old.levels }
    {
        let n = vertices.len();
        let m = levels.len();
        self.vertices[0..n].copy_from_slice(vertices);
        self.levels[0..m].copy_from_slice(levels);
    }
}
