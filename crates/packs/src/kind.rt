ghost use Rattle.std.specs.Prelude.{◌≡◌, Some, ok_or};
ghost use Rattle.packs.specs.Kind.{measure_number, price_number, measure_numbered, price_numbered, unknown, unknown_text, measure_largest};

use measures::area::Area;
use measures::measure::Measure;
use measures::segment::Segment;
use measures::strip::Strip;
use std::error::Error;
use std::fmt;

// The measures that packs name by a number.
#[derive(Clone, Copy, PartialEq, Eq, Debug)]
pub enum MeasureKind {
    Segment,
    Strip,
    Area,
}

// The prices that packs name by a number.
#[derive(Clone, Copy, PartialEq, Eq, Debug)]
pub enum PriceKind {
    Count,
    CountThenArea,
}

// A number that names no measure, or no price.
#[derive(Clone, Copy, PartialEq, Eq, Debug)]
pub struct UnknownNumber(pub u8);

// The measure with a number.
impl TryFrom<u8> for MeasureKind {
    type Error = UnknownNumber;

    ghost try_from_gives = { λ number answer. answer ≡ ok_or (measure_numbered number) (unknown number) };

    fn try_from(number: u8) -> Result<MeasureKind, UnknownNumber> {
        match number {
            1 => Ok(MeasureKind::Segment),
            2 => Ok(MeasureKind::Strip),
            3 => Ok(MeasureKind::Area),
            _ => Err(UnknownNumber(number)),
        }
    }
}

// The price with a number. A table of its own: it shares but the frame with that of the measures.
impl TryFrom<u8> for PriceKind {
    type Error = UnknownNumber;

    ghost try_from_gives = { λ number answer. answer ≡ ok_or (price_numbered number) (unknown number) };

    fn try_from(number: u8) -> Result<PriceKind, UnknownNumber> {
        match number {
            1 => Ok(PriceKind::Count),
            2 => Ok(PriceKind::CountThenArea),
            _ => Err(UnknownNumber(number)),
        }
    }
}

// The number of a measure.
impl From<MeasureKind> for u8 {
    ghost from_gives = { λ measure number. number ≡ measure_number measure };

    fn from(measure: MeasureKind) -> u8 {
        match measure {
            MeasureKind::Segment => 1,
            MeasureKind::Strip => 2,
            MeasureKind::Area => 3,
        }
    }
}

// The number of a price.
impl From<PriceKind> for u8 {
    ghost from_gives = { λ price number. number ≡ price_number price };

    fn from(price: PriceKind) -> u8 {
        match price {
            PriceKind::Count => 1,
            PriceKind::CountThenArea => 2,
        }
    }
}

impl MeasureKind {
    // The largest tolerance of the measure.
    pub fn largest(self) -> u32
        ensures { result ≡ measure_largest self }
    {
        match self {
            MeasureKind::Segment => Segment::LARGEST,
            MeasureKind::Strip => Strip::LARGEST,
            MeasureKind::Area => Area::LARGEST,
        }
    }
}

impl fmt::Display for UnknownNumber {
    ghost output = { λ error. Some (unknown_text error) };

    fn fmt<W: fmt::Write>(&self, f: &mut fmt::Formatter<W>) -> fmt::Result {
        write!(f, "nothing has the number {}", self.0)
    }
}

impl Error for UnknownNumber {}
