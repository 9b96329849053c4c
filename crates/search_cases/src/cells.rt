// Every cell after a search of four vertices under two levels, against tables that were reckoned by hand, under both prices.
use crate::memory::{Noise, at, level, search};
use approvals::approvals::Approvals;
use lines::fault::Fault;
use lines::line::Line;
use prices::count::Count;
use prices::count_then_area::CountThenArea;
use prices::price::Price;
use std::process::Abort;
use std::test::Fail;

// Level 1 has weight 1 and allows 0 → 2; level 2 has weight 2 and allows 0 → 3 too; no level allows 1 → 3.
fn approvals() -> Result<Approvals, Fault> {
    let mut approvals = Approvals::new();
    approvals.approve(0, 2, 1)?;
    approvals.approve(0, 3, 2)?;
    Ok(approvals)
}

// Row i has the grades from vertex i.
static GRADES: [[u8; 4]; 4] = [[0, 1, 1, 2], [0, 0, 1, 3], [0, 0, 0, 1], [0, 0, 0, 0]];

// The counts of the least totals: row i has those of level 1 from vertex i, row 4 + i those of level 2.
static COUNTS: [[u32; 4]; 8] = [
    [0, 1, 1, 2],
    [0, 0, 1, 2],
    [0, 0, 0, 1],
    [0, 0, 0, 0],
    [0, 3, 3, 4],
    [0, 0, 3, 6],
    [0, 0, 0, 3],
    [0, 0, 0, 0],
];

// Their areas: 0 → 2 has the area 2, 0 → 3 the area 16, and links to the next vertex have none.
static AREAS: [[u64; 4]; 8] = [
    [0, 0, 2, 2],
    [0, 0, 0, 0],
    [0, 0, 0, 0],
    [0, 0, 0, 0],
    [0, 0, 4, 18],
    [0, 0, 0, 0],
    [0, 0, 0, 0],
    [0, 0, 0, 0],
];

// Level 2 is 0 3, level 1 is 0 2 3.
static STAYS: [u8; 4] = [2, 0, 1, 2];

// The search leaves the tables, with these areas, and the noise past them.
fn leaves<P: Price>(rt: &impl Abort, areas: &[[u64; 4]; 8], prices: &mut [P]) -> Result<(), Fail> {
    let vertices = [at(0, 0), at(2, 1), at(4, 3), at(6, 0)];
    let mut line = Line::built_in();
    line.make(&vertices)?;
    let levels = [level(1, 1), level(2, 2)];
    for (byte, weight) in [(9, 0), (255, u32::MAX)] {
        let noise = Noise { byte, weight };
        let found = search::<Approvals, P>(&approvals()?, &line, &levels, noise, prices);
        assert_eq!(rt; found.total?.form(), (COUNTS[4][3], areas[4][3]));
        for (y, grade) in found.grades.iter().enumerate() {
            let cell = GRADES.get(y / 4).map_or(byte, |row| row[y % 4]);
            assert_eq!(rt; *grade, cell, "grade {y}");
        }
        let past = noise.price::<P>(&line).form();
        for (y, price) in prices.iter().enumerate() {
            let count = COUNTS.get(y / 4).map(|row| row[y % 4]);
            let area = areas.get(y / 4).map(|row| row[y % 4]);
            assert_eq!(rt; price.form(), count.zip(area).unwrap_or(past), "price {y}");
        }
        for (v, stay) in found.stays.iter().enumerate() {
            assert_eq!(rt; *stay, STAYS.get(v).copied().unwrap_or(byte), "stay {v}");
        }
    }
    Ok(())
}

#[test]
fn every_cell(rt: HostRuntime) -> Result<(), Fail> {
    let mut counts = [Count { count: 77 }; 40];
    leaves(&rt, &[[0; 4]; 8], &mut counts)?;
    let mut pairs = [CountThenArea { count: 77, area: 7 }; 40];
    leaves(&rt, &AREAS, &mut pairs)
}
