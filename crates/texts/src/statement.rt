// What one line of a text says.
ghost use Rattle.std.specs.Prelude.{◌≡◌, map, IfOk, MatchResult, option_map, vec_items};
ghost use Rattle.std.specs.List.{slice_split};
ghost use Rattle.texts.specs.Error.{at_line, Blamed};
ghost use Rattle.texts.specs.Statement.{of_one, measure_of, price_of, level_in, coordinate_of, vertex_in, stated, parts, are_line_string, closed, inside, vertices_in, line_string_in, vertices_said, statements_in};

use crate::error::{Expected, TextError};
use lines::level::Level;
use lines::vertex::Vertex;
use packs::kind::{MeasureKind, PriceKind};
use std::alloc::{AllocError, Global};
use words::{signed_number, whole_number, words};

// One thing that a line says.
#[derive(Clone, Copy, PartialEq, Eq, Debug)]
pub(crate) enum Statement {
    Measure(MeasureKind),
    Price(PriceKind),
    Level(Level),
    Vertex(Vertex),
}

// The measure that the only one of words names.
fn read_measure(words: &[&[u8]]) -> Option<MeasureKind>
    ensures { result ≡ of_one measure_of (map (λ w. w.now) words.now) }
{
    match *words {
        [name] if name == b"segment".as_slice() => Some(MeasureKind::Segment),
        [name] if name == b"strip".as_slice() => Some(MeasureKind::Strip),
        [name] if name == b"area".as_slice() => Some(MeasureKind::Area),
        _ => None,
    }
}

// The price that the only one of words names.
fn read_price(words: &[&[u8]]) -> Option<PriceKind>
    ensures { result ≡ of_one price_of (map (λ w. w.now) words.now) }
{
    match *words {
        [name] if name == b"count".as_slice() => Some(PriceKind::Count),
        [name] if name == b"count-area".as_slice() => Some(PriceKind::CountThenArea),
        _ => None,
    }
}

// The level that words write: a tolerance and a weight.
fn read_level(words: &[&[u8]]) -> Option<Level>
    ensures { result ≡ level_in (map (λ w. w.now) words.now) }
{
    let [tolerance, weight] = *words else {
        return None;
    };
    Some(Level {
        tolerance: whole_number(tolerance)?,
        weight: whole_number(weight)?,
    })
}

// The coordinate that a word writes.
fn read_coordinate(word: &[u8]) -> Option<i16>
    ensures { result ≡ coordinate_of word.now }
{
    let number = signed_number(word)?;
    if number < -16384 || number > 16383 {
        return None;
    }
    Some(number as i16)
}

// The vertex that words write: x and y.
fn read_vertex(words: &[&[u8]]) -> Option<Vertex>
    ensures { result ≡ vertex_in (map (λ w. w.now) words.now) }
{
    let [x, y] = *words else {
        return None;
    };
    Some(Vertex {
        x: read_coordinate(x)?,
        y: read_coordinate(y)?,
    })
}

// What the words behind the first word of a line say by that word.
fn read_statement(word: &[u8], words: &[&[u8]]) -> Result<Statement, Expected>
    ensures { result ≡ stated word.now (map (λ w. w.now) words.now) }
{
    if word == b"measure".as_slice() {
        let measure = read_measure(words).ok_or(Expected::MeasureName)?;
        Ok(Statement::Measure(measure))
    } else if word == b"price".as_slice() {
        let price = read_price(words).ok_or(Expected::PriceName)?;
        Ok(Statement::Price(price))
    } else if word == b"level".as_slice() {
        let level = read_level(words).ok_or(Expected::LevelNumbers)?;
        if level.weight < 1 || level.weight > 1000 {
            return Err(Expected::WeightInRange);
        }
        Ok(Statement::Level(level))
    } else if word == b"vertex".as_slice() {
        let vertex = read_vertex(words).ok_or(Expected::VertexNumbers)?;
        Ok(Statement::Vertex(vertex))
    } else {
        Err(Expected::Form)
    }
}

// The parts of a text between marks.
fn parts(heap: Global, text: &[u8], mark: u8) -> Result<Vec<&[u8]>, AllocError>
    ensures { IfOk result (λ v. map (λ part. part.now) v.items ≡ parts mark text.now) }
{
    text.split(|c| *c == mark).collect(heap)
}

// Whether words are the one word LINESTRING.
fn are_line_string(words: &[&[u8]]) -> bool
    ensures { result ≡ are_line_string (map (λ w. w.now) words.now) }
{
    match *words {
        [name] => name == b"LINESTRING".as_slice(),
        _ => false,
    }
}

// Of two parts of a text around a closing parenthesis the first, if no word is in the second.
fn closed<'a>(heap: Global, parts: &[&'a [u8]]) -> Result<Option<&'a [u8]>, AllocError>
    ensures { IfOk result (λ o. option_map (λ text. text.now) o ≡ closed (map (λ part. part.now) parts.now)) }
{
    let [text, tail] = *parts else {
        return Ok(None);
    };
    let after = words(heap, tail)?;
    Ok(after.is_empty().then_some(text))
}

// What stands between the parentheses of a line that is LINESTRING, a text in parentheses, and nothing else.
fn inside(heap: Global, line: &[u8]) -> Result<Option<&[u8]>, AllocError>
    ensures { IfOk result (λ o. option_map (λ text. text.now) o ≡ inside line.now) }
{
    let opened = parts(heap, line, b'(')?;
    let [head, rest] = *opened else {
        return Ok(None);
    };
    if !are_line_string(&words(heap, head)?) {
        return Ok(None);
    }
    closed(heap, &parts(heap, rest, b')')?)
}

// The vertices that texts write, two words each.
fn read_vertices(heap: Global, texts: &[&[u8]]) -> Result<Option<Vec<Statement>>, AllocError>
    ensures { IfOk result (λ o. option_map vec_items o ≡ vertices_said (vertices_in (map (λ text. text.now) texts.now))) }
{
    let mut said = Vec::new(heap);
    for text in texts {
        let Some(vertex) = read_vertex(&words(heap, text)?) else {
            return Ok(None);
        };
        said.push(Statement::Vertex(vertex))?;
    }
    Ok(Some(said))
}

// The vertices that a LINESTRING writes.
fn read_line_string(heap: Global, line: &[u8]) -> Result<Option<Vec<Statement>>, AllocError>
    ensures { IfOk result (λ o. option_map vec_items o ≡ vertices_said (line_string_in line.now)) }
{
    let Some(text) = inside(heap, line)? else {
        return Ok(None);
    };
    read_vertices(heap, &parts(heap, text, b',')?)
}

// What line n says, or what was expected of it.
pub(crate) fn read_statements(
    heap: Global,
    n: usize,
    line: &[u8],
) -> Result<Vec<Statement>, TextError>
    ensures { MatchResult result (λ v. at_line n (statements_in line.now) ≡ Ok v.items) (Blamed (at_line n (statements_in line.now))) }
{
    let words = words(heap, line)?;
    let [first, rest @ ..] = &*words else {
        return Ok(Vec::new(heap));
    };
    if first.first() == Some(&b'#') {
        return Ok(Vec::new(heap));
    }
    if first.starts_with(b"LINESTRING") {
        return read_line_string(heap, line)?.ok_or(TextError::Line(n, Expected::LineString));
    }
    let statement = read_statement(first, rest).map_err(|expected| TextError::Line(n, expected))?;
    let mut said = Vec::new(heap);
    said.push(statement).map_err(AllocError::from)?;
    Ok(said)
}
