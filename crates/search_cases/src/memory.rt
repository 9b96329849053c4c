// What the tests share: vertices and levels, and a search in memory of 8 vertices and 2 levels, filled with noise before the call.
use lines::fault::Fault;
use lines::level::Level;
use lines::line::Line;
use lines::vertex::Vertex;
use measures::measure::Measure;
use prices::price::Price;
use search::least::find_least;
use std::process::Abort;
use std::test::Fail;

pub(crate) fn at(x: i16, y: i16) -> Vertex {
    Vertex { x, y }
}

pub(crate) fn level(tolerance: u32, weight: u32) -> Level {
    Level { tolerance, weight }
}

// What the memory holds before a search: a byte in every grade and stay, and in every price cell the price of the link 0 → 1
// at a weight. At weight 0 that price is below every total, at the largest weight above.
#[derive(Clone, Copy)]
pub(crate) struct Noise {
    pub(crate) byte: u8,
    pub(crate) weight: u32,
}

impl Noise {
    // The price in every price cell.
    pub(crate) fn price<P: Price>(self, line: &Line) -> P {
        P::of_link(line, 0, 1, self.weight)
    }
}

// What a search answered, and the grades and stays that it left.
#[derive(Drop)]
pub(crate) struct Found<P> {
    pub(crate) total: Result<P, Fault>,
    pub(crate) grades: [u8; 64],
    pub(crate) stays: [u8; 8],
}

// Searches in memory that is full of the noise.
pub(crate) fn search<M: Measure, P: Price>(
    measure: &M,
    line: &Line,
    levels: &[Level],
    noise: Noise,
    prices: &mut [P],
) -> Found<P> {
    let mut grades = [noise.byte; 64];
    let mut stays = [noise.byte; 8];
    let price = noise.price::<P>(line);
    prices.fill_with(|| price);
    let total = find_least(measure, line, levels, &mut grades, prices, &mut stays);
    Found {
        total,
        grades,
        stays,
    }
}

// The search finds a total of this form and these stays, whatever the memory held before; stays past the line keep the noise.
// A call is a worked example; a struct of its arguments would be made in each.
pub(crate) fn finds<M: Measure, P: Price>(
    rt: &impl Abort,
    measure: &M,
    line: &Line,
    levels: &[Level],
    form: (u32, u64),
    stays: &[u8],
    prices: &mut [P],
) -> Result<(), Fail> {
    for byte in [0u8, 9, 255] {
        for weight in [0, 3, u32::MAX] {
            let noise = Noise { byte, weight };
            let found = search::<M, P>(measure, line, levels, noise, prices);
            assert_eq!(rt; found.total?.form(), form);
            for (v, stay) in found.stays.iter().enumerate() {
                assert_eq!(rt; *stay, stays.get(v).copied().unwrap_or(byte));
            }
        }
    }
    Ok(())
}
