ghost use Rattle.std.specs.Prelude.{◌≡◌, ℕ, ◌+◌, ◌*◌, ◌<◌, ◌≤◌, length, slice_index, MatchOption};
ghost use Rattle.tables.specs.Grade.{grade_cell, Graded, GradeRoom, first_level, TellsFirstLevel};

use lines::level::Level;
use lines::line::Line;
use measures::measure::Measure;

// A view of the grades of a line of n vertices under m levels: cell i * n + j, for i below j, is the first level that allows the
// link i → j, or m + 1.
#[derive(Clone, Copy)]
pub struct GradeTable<'a> {
    cells: &'a [u8],
    n: usize,
    m: usize,
}

impl<'a> GradeTable<'a> {
    // A view of these cells.
    pub fn over(cells: &'a [u8], n: usize, m: usize) -> GradeTable<'a>
        ensures cells { result.cells ≡ cells.entry }
        ensures n { result.n ≡ n }
        ensures m { result.m ≡ m }
    {
        GradeTable { cells, n, m }
    }

    // The cell of i and j; none where that lies past the memory.
    fn cell(&self, i: usize, j: usize) -> Option<u8>
        ensures { MatchOption result (length self.now.cells.now ≤ i * self.now.n + j) (λ grade. (i * self.now.n + j < length self.now.cells.now) × (grade ≡ slice_index self.now.cells.now (i * self.now.n + j))) }
    {
        let place = i.saturating_mul(self.n).saturating_add(j);
        self.cells.get(place).copied()
    }

    // The first level that allows the link from i to j: none for a link that no level allows, and for a pair that is no link.
    pub fn first_level(&self, i: usize, j: usize) -> Option<usize>
        ensures answer { result ≡ first_level self.now.cells.now self.now.n self.now.m i j }
        ensures tells_first_level { TellsFirstLevel self.now.cells.now self.now.n self.now.m i j result }
    {
        if i >= j || j >= self.n {
            return None;
        }
        let grade = self.cell(i, j)? as usize;
        if grade < 1 || grade > self.m {
            return None;
        }
        Some(grade)
    }
}

// The grading of a line under a measure, for no more levels than a job has.
#[derive(Drop)]
struct Grading<'a, M> {
    measure: &'a M,
    line: Line<'a>,
    levels: &'a [Level],
    ghost few: { length levels.now ≤ 8 },
}

impl<'a, M: Measure> Grading<'a, M> {
    // What the cell of i and j holds. `is_link` asks for more than i < j, which alone decides between 0 and a grade.
    fn cell(&self, i: usize, j: usize) -> u8
        ensures { result ≡ grade_cell (M.Measure.says self.now.measure.now) self.now.line.vertices.now self.now.levels.now i j }
    {
        if i >= j {
            return 0;
        }
        let first = self.measure.first_level(&self.line, self.levels, i, j);
        // One more than there are levels stands for no level: the format of the cells that a caller reads.
        first.unwrap_or(self.levels.len() + 1) as u8
    }

    // Fills a row with the cells of vertex i.
    fn fill_row(&self, i: usize, row: &mut [u8])
        ensures { (j : ℕ) → j < length row.old → slice_index row.new j ≡ grade_cell (M.Measure.says self.now.measure.now) self.now.line.vertices.now self.now.levels.now i j }
    {
        for (j, cell) in row.iter_mut().enumerate() {
            *cell = self.cell(i, j);
        }
    }
}

// Writes the grades of all links of the line into the first n * n cells. Nothing is written where there are fewer cells or more
// than 8 levels.
pub fn grade_links<M: Measure>(measure: &M, line: &Line, levels: &[Level], cells: &mut [u8])
    ensures graded { GradeRoom (length levels.now) (length line.now.vertices.now) (length cells.old) → Graded (M.Measure.says measure.now) line.now.vertices.now levels.now cells.new }
    ensures rest_kept { (y : ℕ) → length line.now.vertices.now * length line.now.vertices.now ≤ y → slice_index cells.new y ≡ slice_index cells.old y }
    ensures short_kept { (GradeRoom (length levels.now) (length line.now.vertices.now) (length cells.old) → ⊥) → cells.new ≡ cells.old }
{
    let n = line.count();
    if levels.len() > 8 || n * n > cells.len() {
        return;
    }
    let grading = Grading {
        measure,
        line: *line,
        levels,
    };
    // Tried with `chunks_exact_mut`: while it lends the rows, no invariant can speak of the cells written so far.
    for i in 0..n {
        grading.fill_row(i, &mut cells[i * n..i * n + n]);
    }
}
