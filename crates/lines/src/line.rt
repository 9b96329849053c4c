ghost use Rattle.std.specs.Prelude.{◌≡◌, ◌<◌, ◌≤◌, length, is_ok, Decides, MatchResult};
ghost use Rattle.lines.specs.Line.{Lawful, Blamed, judged_size, judged_line, built_in, is_link};

use crate::fault::{Cause, Fault, Layer};
use crate::vertex::Vertex;

// A checked line: a borrowed view of 2 to 256 vertices, all in range.
#[derive(Clone, Copy)]
pub struct Line<'a> {
    vertices: &'a [Vertex],
    ghost lawful: { Lawful vertices.now },
}

// Judges the number of vertices of a line: 2 to 256.
pub fn check_size(n: usize, layer: Layer) -> Result<(), Fault>
    ensures answer { result ≡ judged_size layer n }
    ensures lawful { Decides (is_ok result) ((2 ≤ n) × (n ≤ 256)) }
{
    if n < 2 || n > 256 {
        return Err(Fault::new(Cause::Limits, layer, 0));
    }
    Ok(())
}

static BUILT_IN: [Vertex; 2] = [Vertex { x: 0, y: 0 }, Vertex { x: 1, y: 0 }];

impl<'a> Line<'a> {
    // The line from (0, 0) to (1, 0), a place for `make` to fill.
    pub fn built_in() -> Line<'a>
        ensures { result.vertices.now ≡ built_in }
    {
        Line {
            vertices: &BUILT_IN,
        }
    }

    // Makes this the line of these vertices, or refuses and leaves it as it stood.
    pub fn make(&mut self, vertices: &'a [Vertex]) -> Result<(), Fault>
        ensures answer { result ≡ judged_line vertices.now }
        ensures names_the_first_fault { MatchResult result (λ _. Lawful vertices.now) (λ f. Blamed vertices.now f) }
        ensures refusal_leaves_line { MatchResult result (λ _. self.new.vertices ≡ vertices.entry) (λ _. self.new ≡ self.old) }
    {
        check_size(vertices.len(), Layer::Content)?;
        // A loop over the slice with its index: the project rules this form here.
        for (i, v) in vertices.iter().enumerate() {
            if !v.in_range() {
                return Err(Fault::new(Cause::Coordinate, Layer::Content, i));
            }
        }
        self.vertices = vertices;
        Ok(())
    }

    // The number of vertices.
    pub fn count(&self) -> usize
        ensures { result ≡ length self.now.vertices.now }
    {
        self.vertices.len()
    }

    // Whether i → j is a link: i is below j, and both are vertices.
    pub fn is_link(&self, i: usize, j: usize) -> bool
        ensures value { result ≡ is_link self.now.vertices.now i j }
        ensures decides { Decides result ((i < j) × (j < length self.now.vertices.now)) }
    {
        i < j && j < self.count()
    }

    // The vertices.
    pub fn vertices(&self) -> &'a [Vertex]
        ensures value { result ≡ self.now.vertices }
        ensures lawful { Lawful result.now }
    {
        self.vertices
    }
}
