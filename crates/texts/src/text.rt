// Jobs and chains as text.
ghost use Rattle.std.specs.Prelude.{◌≡◌, ◌≤◌, Some, IfOk, length, string_bytes, sum};
ghost use Rattle.words.specs.Lines.{each_with};
ghost use Rattle.writer.specs.Family.{chains_of};
ghost use Rattle.writer.specs.Job.{content};
ghost use Rattle.texts.specs.Text.{measure_name, price_name, statement_line, job_text, chain_lines};

use crate::statement::Statement;
use drawings::text::level_line;
use lines::level::Level;
use lines::vertex::Vertex;
use packs::kind::{MeasureKind, PriceKind};
use std::alloc::{AllocError, Global};
use std::fmt;

// The name of a measure.
fn measure_name(measure: MeasureKind) -> &'static str
    ensures { result.now ≡ measure_name measure }
{
    match measure {
        MeasureKind::Segment => "segment",
        MeasureKind::Strip => "strip",
        MeasureKind::Area => "area",
    }
}

// The name of a price.
fn price_name(price: PriceKind) -> &'static str
    ensures { result.now ≡ price_name price }
{
    match price {
        PriceKind::Count => "count",
        PriceKind::CountThenArea => "count-area",
    }
}

// The line that says one thing.
impl fmt::Display for Statement {
    ghost output = { λ statement. Some (statement_line statement) };

    fn fmt<W: fmt::Write>(&self, f: &mut fmt::Formatter<W>) -> fmt::Result {
        match self {
            Self::Measure(measure) => write!(f, "measure {}", measure_name(*measure)),
            Self::Price(price) => write!(f, "price {}", price_name(*price)),
            Self::Level(l) => write!(f, "level {} {}", l.tolerance, l.weight),
            Self::Vertex(v) => write!(f, "vertex {} {}", v.x, v.y),
        }
    }
}

// The text of a job.
pub(crate) fn job_text(
    heap: Global,
    measure: MeasureKind,
    price: PriceKind,
    vertices: &[Vertex],
    levels: &[Level],
) -> Result<String, AllocError>
    ensures { IfOk result (λ s. string_bytes s ≡ job_text (content measure price vertices.now levels.now)) }
{
    let mut text = String::new(heap);
    let measure = Statement::Measure(measure);
    let price = Statement::Price(price);
    writeln!(text, "{measure}")?;
    writeln!(text, "{price}")?;
    for level in levels {
        let level = Statement::Level(*level);
        writeln!(text, "{level}")?;
    }
    for vertex in vertices {
        let vertex = Statement::Vertex(*vertex);
        writeln!(text, "{vertex}")?;
    }
    Ok(text)
}

// The comments of chains that lie end to end, each as long as its count.
pub(crate) fn chain_lines(
    heap: Global,
    numbers: &[u16],
    counts: &[usize],
) -> Result<String, AllocError>
    requires { sum counts.now ≤ length numbers.now }
    ensures { IfOk result (λ s. string_bytes s ≡ each_with 10 (chain_lines 1 (chains_of counts.now numbers.now))) }
{
    let mut text = String::new(heap);
    let mut rest = numbers;
    for (i, count) in counts.iter().enumerate() {
        let (chain, after) = rest.split_at(*count);
        let chain: Vec<usize> = chain.iter().map(|v| *v as usize).collect(heap)?;
        let line = level_line(heap, i + 1, &chain)?;
        writeln!(text, "# {line}")?;
        rest = after;
    }
    Ok(text)
}
