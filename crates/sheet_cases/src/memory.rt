// What the tests share: vertices and levels, lent memories that are filled with noise, and a draw in them.
use lines::fault::Fault;
use lines::level::Level;
use lines::line::Line;
use lines::vertex::Vertex;
use measures::measure::Measure;
use prices::price::Price;
use search::room::Room;
use sheets::sheet::Sheet;
use std::alloc::{AllocError, Global};
use std::process::Abort;
use std::test::Fail;

pub(crate) fn at(x: i16, y: i16) -> Vertex {
    Vertex { x, y }
}

pub(crate) fn level(tolerance: u32, weight: u32) -> Level {
    Level { tolerance, weight }
}

// What the memories hold before a call: a byte in every grade and stay, and in every price cell the price of the link 0 → 1 of the
// line from (0, 0) to (1, 0), at a weight.
#[derive(Clone, Copy)]
pub(crate) struct Noise {
    pub(crate) byte: u8,
    pub(crate) weight: u32,
}

impl Noise {
    // The price in every price cell.
    fn price<P: Price>(self) -> P {
        P::of_link(&Line::built_in(), 0, 1, self.weight)
    }
}

// Noise below what a search writes, among it and above it.
static NOISES: [Noise; 3] = [
    Noise { byte: 0, weight: 0 },
    Noise { byte: 9, weight: 3 },
    Noise {
        byte: 255,
        weight: u32::MAX,
    },
];

// Noise for memories that are filled once.
pub(crate) const NOISE: Noise = Noise {
    byte: 77,
    weight: 77,
};

pub(crate) fn room(grades: usize, prices: usize, stays: usize) -> Room {
    Room {
        grades,
        prices,
        stays,
    }
}

// What two levels of seven vertices need.
pub(crate) fn enough() -> Room {
    room(49, 98, 7)
}

// The three memories.
#[derive(Drop)]
pub(crate) struct Memory<P> {
    pub(crate) grades: Vec<u8>,
    pub(crate) prices: Vec<P>,
    pub(crate) stays: Vec<u8>,
}

impl<P: Price> Memory<P> {
    // Memories of these sizes, full of the noise.
    pub(crate) fn filled(heap: Global, room: Room, noise: Noise) -> Result<Memory<P>, AllocError> {
        let price = noise.price::<P>();
        Ok(Memory {
            grades: vec![in heap; noise.byte; room.grades]?,
            prices: vec![in heap; price; room.prices]?,
            stays: vec![in heap; noise.byte; room.stays]?,
        })
    }

    // Whether what lies past so many cells is the noise.
    pub(crate) fn keeps(&self, noise: Noise, past: Room) -> bool {
        let price = noise.price::<P>();
        let keeps_grades = self
            .grades
            .iter()
            .skip(past.grades)
            .all(|g| *g == noise.byte);
        let keeps_prices = self
            .prices
            .iter()
            .skip(past.prices)
            .all(|p| p.equals(price));
        let keeps_stays = self.stays.iter().skip(past.stays).all(|s| *s == noise.byte);
        keeps_grades && keeps_prices && keeps_stays
    }
}

// What two levels of a line need.
fn two_levels(line: &Line) -> Room {
    let n = line.count();
    room(n * n, 2 * (n * n), n)
}

// Places past what a draw needs, in each memory.
const SPARE: usize = 5;

// A sheet of two levels draws a total of this form and these stays, whatever the memories held before; what lies past the cells keeps the noise.
pub(crate) fn draws<M: Measure, P: Price>(
    rt: &(impl Abort + AllocGlobal),
    sheet: &Sheet<M, P>,
    line: &Line,
    form: (u32, u64),
    stays: &[u8],
) -> Result<(), Fail> {
    let need = two_levels(line);
    let held = room(
        need.grades.saturating_add(SPARE),
        need.prices.saturating_add(SPARE),
        need.stays.saturating_add(SPARE),
    );
    for noise in &NOISES {
        let mut memory = Memory::<P>::filled(rt.alloc(), held, *noise)?;
        let total = drawn(sheet, line, &mut memory)?;
        assert_eq!(rt; total.form(), form);
        assert!(rt;
            memory.stays.iter().take(need.stays).eq(stays.iter()),
            "stays"
        );
        assert!(rt; memory.keeps(*noise, need), "past the cells");
    }
    Ok(())
}

// Draws in all of the memories.
pub(crate) fn drawn<M: Measure, P: Price>(
    sheet: &Sheet<M, P>,
    line: &Line,
    memory: &mut Memory<P>,
) -> Result<P, Fault> {
    sheet.draw(
        line,
        memory.grades.as_mut_slice(),
        memory.prices.as_mut_slice(),
        memory.stays.as_mut_slice(),
    )
}
