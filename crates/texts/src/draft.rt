// What the lines of a text say so far.
ghost use Rattle.std.specs.Prelude.{◌≡◌, map, IfOk, MatchResult};
ghost use Rattle.texts.specs.Error.{at_line, Blamed};
ghost use Rattle.texts.specs.Draft.{said_in, nothing, with_measure, with_price, with_level, with_vertex, taken, all_taken, all_said, levels_of, none_above, whole};
ghost use Rattle.writer.specs.Job.{content};

use crate::error::{Expected, TextError};
use crate::statement::{Statement, read_statements};
use lines::level::Level;
use lines::vertex::Vertex;
use packs::kind::{MeasureKind, PriceKind};
use std::alloc::{AllocError, Global};

// A level and the number of the line that says it.
#[derive(Clone, Copy)]
pub(crate) struct LevelLine {
    pub number: usize,
    pub level: Level,
}

// A measure and a price, levels and vertices, as far as they are said.
#[derive(Drop)]
pub(crate) struct Draft {
    pub measure: Option<MeasureKind>,
    pub price: Option<PriceKind>,
    pub levels: Vec<LevelLine>,
    pub vertices: Vec<Vertex>,
}

impl Draft {
    // Nothing is said yet.
    pub fn new(heap: Global) -> Draft
        ensures { said_in result ≡ nothing }
    {
        Draft {
            measure: None,
            price: None,
            levels: Vec::new(heap),
            vertices: Vec::new(heap),
        }
    }

    // Takes the level of line n.
    fn take_level(&mut self, n: usize, level: Level) -> Result<(), TextError>
        ensures { MatchResult result (λ _. at_line n (with_level (said_in self.old) n level) ≡ Ok (said_in self.new)) (Blamed (at_line n (with_level (said_in self.old) n level))) }
    {
        if self.levels.len() >= 8 {
            return Err(TextError::Line(n, Expected::FewLevels));
        }
        if let Some(last) = self.levels.last()
            && last.level.tolerance >= level.tolerance
        {
            return Err(TextError::Line(n, Expected::RisingTolerance));
        }
        self.levels
            .push(LevelLine { number: n, level })
            .map_err(AllocError::from)?;
        Ok(())
    }

    // Takes one thing that line n says.
    fn take(&mut self, n: usize, statement: Statement) -> Result<(), TextError>
        ensures { MatchResult result (λ _. at_line n (taken n statement (said_in self.old)) ≡ Ok (said_in self.new)) (Blamed (at_line n (taken n statement (said_in self.old)))) }
    {
        match statement {
            Statement::Measure(_) if self.measure.is_some() => {
                Err(TextError::Line(n, Expected::OneMeasure))
            }
            Statement::Measure(measure) => {
                self.measure = Some(measure);
                Ok(())
            }
            Statement::Price(_) if self.price.is_some() => {
                Err(TextError::Line(n, Expected::OnePrice))
            }
            Statement::Price(price) => {
                self.price = Some(price);
                Ok(())
            }
            Statement::Level(level) => self.take_level(n, level),
            Statement::Vertex(_) if self.vertices.len() >= 256 => {
                Err(TextError::Line(n, Expected::FewVertices))
            }
            Statement::Vertex(vertex) => {
                self.vertices.push(vertex).map_err(AllocError::from)?;
                Ok(())
            }
        }
    }

    // Takes all that line n says.
    fn take_all(&mut self, n: usize, statements: &[Statement]) -> Result<(), TextError>
        ensures { MatchResult result (λ _. at_line n (all_taken n statements.now (said_in self.old)) ≡ Ok (said_in self.new)) (Blamed (at_line n (all_taken n statements.now (said_in self.old)))) }
    {
        for statement in statements {
            self.take(n, *statement)?;
        }
        Ok(())
    }

    // The levels that are said, without their lines.
    pub fn levels(&self, heap: Global) -> Result<Vec<Level>, AllocError>
        ensures { IfOk result (λ levels. levels.items ≡ levels_of (said_in self.now)) }
    {
        self.levels.iter().map(|l| l.level).collect(heap)
    }

    // The measure and the price of a job that is said in whole, or the first thing that it lacks; `end` is the line after the last.
    pub fn finish(&self, end: usize) -> Result<(MeasureKind, PriceKind), TextError>
        ensures { MatchResult result (λ k. whole end (said_in self.now) ≡ Ok (content k.0 k.1 self.now.vertices.items (levels_of (said_in self.now)))) (λ e. whole end (said_in self.now) ≡ Err e) }
    {
        let measure = self
            .measure
            .ok_or(TextError::Line(end, Expected::SomeMeasure))?;
        check_largest(&self.levels, measure.largest())?;
        let price = self.price.ok_or(TextError::Line(end, Expected::SomePrice))?;
        if self.levels.is_empty() {
            return Err(TextError::Line(end, Expected::SomeLevel));
        }
        if self.vertices.len() < 2 {
            return Err(TextError::Line(end, Expected::TwoVertices));
        }
        Ok((measure, price))
    }
}

// Judges that no level has a tolerance above a measure's largest.
fn check_largest(levels: &[LevelLine], largest: u32) -> Result<(), TextError>
    ensures { result ≡ none_above largest levels.now }
{
    for l in levels {
        if l.level.tolerance > largest {
            return Err(TextError::Line(l.number, Expected::ToleranceUpTo(largest)));
        }
    }
    Ok(())
}

// What lines say, the first of which is line 1; or the first line that is at fault.
pub(crate) fn read_lines(heap: Global, lines: &[&[u8]]) -> Result<Draft, TextError>
    ensures { MatchResult result (λ d. all_said 1 (map (λ line. line.now) lines.now) nothing ≡ Ok (said_in d)) (Blamed (all_said 1 (map (λ line. line.now) lines.now) nothing)) }
{
    let mut draft = Draft::new(heap);
    for (i, line) in lines.iter().enumerate() {
        let statements = read_statements(heap, i + 1, line)?;
        draft.take_all(i + 1, &statements)?;
    }
    Ok(draft)
}
