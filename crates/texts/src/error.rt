// Why a text says no job.
ghost use Rattle.std.specs.Prelude.{◌≡◌, Some};
ghost use Rattle.texts.specs.Error.{expected_text, error_text};
ghost use Rattle.texts.specs.declared.error.TextError.TheVariants.{OutOfMemory};

use std::alloc::AllocError;
use std::error::Error;
use std::fmt;

// What was expected of a line, or of the lines in all.
#[derive(Clone, Copy, PartialEq, Eq, Debug)]
pub enum Expected {
    Form,
    MeasureName,
    OneMeasure,
    PriceName,
    OnePrice,
    LevelNumbers,
    WeightInRange,
    RisingTolerance,
    ToleranceUpTo(u32),
    FewLevels,
    VertexNumbers,
    LineString,
    FewVertices,
    SomeMeasure,
    SomePrice,
    SomeLevel,
    TwoVertices,
}

// The first line that is at fault, counted from 1, and what was expected of it; what the lines lack in all is expected of the line after the last.
// Or memory runs out.
#[derive(Clone, Copy, PartialEq, Eq, Debug)]
pub enum TextError {
    Line(usize, Expected),
    OutOfMemory,
}

impl From<AllocError> for TextError {
    ghost from_gives = { λ _ error. error ≡ OutOfMemory };

    fn from(_error: AllocError) -> TextError {
        TextError::OutOfMemory
    }
}

impl fmt::Display for Expected {
    ghost output = { λ expected. Some (expected_text expected) };

    fn fmt<W: fmt::Write>(&self, f: &mut fmt::Formatter<W>) -> fmt::Result {
        match self {
            Self::Form => f.write_str(
                "measure NAME, price NAME, level TOLERANCE WEIGHT, vertex X Y or LINESTRING (X Y, X Y, ...)",
            ),
            Self::MeasureName => f.write_str("measure segment, measure strip or measure area"),
            Self::OneMeasure => f.write_str("no second measure"),
            Self::PriceName => f.write_str("price count or price count-area"),
            Self::OnePrice => f.write_str("no second price"),
            Self::LevelNumbers => f.write_str(
                "level TOLERANCE WEIGHT, two whole numbers up to 4294967295",
            ),
            Self::WeightInRange => f.write_str("a weight from 1 to 1000"),
            Self::RisingTolerance => f.write_str("a tolerance above that of the level before"),
            Self::ToleranceUpTo(largest) => write!(f, "a tolerance of at most {largest}"),
            Self::FewLevels => f.write_str("at most 8 levels"),
            Self::VertexNumbers => f.write_str(
                "vertex X Y, two whole numbers from -16384 to 16383",
            ),
            Self::LineString => f.write_str(
                "LINESTRING (X Y, X Y, ...), all whole numbers from -16384 to 16383",
            ),
            Self::FewVertices => f.write_str("at most 256 vertices"),
            Self::SomeMeasure => f.write_str(
                "a measure: measure segment, measure strip or measure area",
            ),
            Self::SomePrice => f.write_str("a price: price count or price count-area"),
            Self::SomeLevel => f.write_str("a level: level TOLERANCE WEIGHT"),
            Self::TwoVertices => f.write_str(
                "at least 2 vertices: vertex X Y or LINESTRING (X Y, X Y, ...)",
            ),
        }
    }
}

// The number of the line and what was expected of it, or that memory ran out.
impl fmt::Display for TextError {
    ghost output = { λ error. Some (error_text error) };

    fn fmt<W: fmt::Write>(&self, f: &mut fmt::Formatter<W>) -> fmt::Result {
        match self {
            Self::Line(n, expected) => write!(f, "line {n}: expected {expected}"),
            Self::OutOfMemory => f.write_str("out of memory"),
        }
    }
}

impl Error for TextError {}
