// Tests of writing and reading: packs at the limits go both ways, and the reader of chains refuses what is no family's records.
use crate::family::{Family, write_family};
use crate::job::write_job;
use lines::fault::{Cause, Fault, Layer};
use lines::level::Level;
use lines::line::Line;
use lines::vertex::Vertex;
use marker::place::ChainPlace;
use marker::reader::{Claim, read_chains};
use packs::job::Job;
use packs::place::Place;
use packs::reader::{read_family_head, read_job};
use std::process::Abort;
use std::test::Fail;

// What stands in lent memory before a call.
const NOISE: u8 = 170;

// The most bytes that a pack takes, and one.
const ROOM: usize = 5271;

// As many vertices as a line has, along a rising line.
fn vertices() -> [Vertex; 256] {
    let mut vertices = [Vertex { x: 0, y: 0 }; 256];
    let mut x = -16_384;
    for v in vertices.iter_mut() {
        *v = Vertex { x, y: 16_383 };
        x = x.saturating_add(128);
    }
    vertices
}

// As many levels as a job has.
fn levels() -> [Level; 8] {
    let mut levels = [Level {
        tolerance: 0,
        weight: 1000,
    }; 8];
    let mut tolerance: u32 = 32_761;
    for level in levels.iter_mut() {
        level.tolerance = tolerance;
        tolerance = tolerance.saturating_add(1);
    }
    levels
}

// As many chain vertices as a family has.
fn numbers() -> [u16; 2048] {
    let mut numbers = [0; 2048];
    let mut number: u16 = 65_535;
    for n in numbers.iter_mut() {
        *n = number;
        number = number.saturating_sub(31);
    }
    numbers
}

// A pack of this size was written into noise: the noise after it stands.
fn noise_after(rt: &impl Abort, bytes: &[u8], size: usize) {
    assert!(rt; bytes.iter().skip(size).all(|byte| *byte == NOISE));
}

// A job was read back into this place.
fn job_read(rt: &impl Abort, job: Job, place: &Place, vertices: &[Vertex], levels: &[Level]) {
    assert_eq!(rt; u8::from(job.measure), 2);
    assert_eq!(rt; u8::from(job.price), 1);
    assert_eq!(rt; place.vertices.get(..job.vertices), Some(vertices));
    assert_eq!(rt; place.levels.get(..job.levels), Some(levels));
}

// A job of this size goes both ways: one byte too few is refused, and the bytes that are written are read back.
fn job_trip(
    rt: &impl Abort,
    vertices: &[Vertex],
    levels: &[Level],
    size: usize,
) -> Result<(), Fail> {
    let mut line = Line::built_in();
    line.make(vertices)?;
    let mut bytes = [NOISE; ROOM];
    let lent = size.min(ROOM);
    let few = write_job(2, 1, &line, levels, &mut bytes[..lent.saturating_sub(1)]);
    assert_eq!(rt; few, Err(Fault::new(Cause::Memory, Layer::Pack, 3)));
    noise_after(rt, &bytes, 0);
    assert_eq!(rt; write_job(2, 1, &line, levels, &mut bytes[..lent])?, size);
    noise_after(rt, &bytes, size);
    let mut place = Place::blank();
    let job = read_job(&bytes[..lent], &mut place)?;
    job_read(rt, job, &place, vertices, levels);
    Ok(())
}

#[test]
fn jobs_at_the_limits(rt: HostRuntime) -> Result<(), Fail> {
    let vertices = vertices();
    let levels = levels();
    job_trip(&rt, &vertices[..2], &levels[..1], 36)?;
    job_trip(&rt, &vertices[..2], &levels, 92)?;
    job_trip(&rt, &vertices, &levels[..1], 1052)?;
    job_trip(&rt, &vertices, &levels, 1108)
}

// A family of this size goes both ways: one byte too few is refused, the bytes that are written are read back, and what was read is written again.
fn family_trip(
    rt: &impl Abort,
    vertices: &[Vertex],
    levels: &[Level],
    family: &Family,
    size: usize,
) -> Result<(), Fail> {
    let mut line = Line::built_in();
    line.make(vertices)?;
    let mut bytes = [NOISE; ROOM];
    let lent = size.min(ROOM);
    let few = write_family(
        2,
        1,
        &line,
        levels,
        family,
        &mut bytes[..lent.saturating_sub(1)],
    );
    assert_eq!(rt; few, Err(Fault::new(Cause::Memory, Layer::Pack, 3)));
    noise_after(rt, &bytes, 0);
    assert_eq!(rt;
        write_family(2, 1, &line, levels, family, &mut bytes[..lent])?,
        size
    );
    noise_after(rt, &bytes, size);
    let mut place = Place::blank();
    let (job, end) = read_family_head(&bytes[..lent], &mut place)?;
    job_read(rt, job, &place, vertices, levels);
    let records = bytes.get(end..lent).unwrap_or_default();
    let mut chains = ChainPlace::blank();
    let claim = read_chains(records, job.vertices, job.levels, &mut chains)?;
    assert_eq!(rt; claim.total, family.total);
    assert_eq!(rt; chains.numbers.get(..claim.vertices), Some(family.chains));
    assert_eq!(rt; chains.counts.get(..job.levels), Some(family.counts));
    let read = Family {
        chains: chains.numbers.get(..claim.vertices).unwrap_or_default(),
        counts: chains.counts.get(..job.levels).unwrap_or_default(),
        total: claim.total,
    };
    let mut again = [NOISE; ROOM];
    assert_eq!(rt; write_family(2, 1, &line, levels, &read, &mut again)?, size);
    assert_eq!(rt; again.as_slice(), bytes.as_slice());
    Ok(())
}

#[test]
fn families_at_the_limits(rt: HostRuntime) -> Result<(), Fail> {
    let vertices = vertices();
    let levels = levels();
    let numbers = numbers();
    let total = (u32::MAX, u64::MAX);
    for (n, m, chains, counts, size) in [
        (2, 1, &numbers[..2], &[2][..], 64),
        (256, 1, &numbers[..2], &[2][..], 1080),
        (256, 1, &numbers[..256], &[256][..], 1588),
        (2, 8, &numbers[..16], &[2; 8][..], 190),
        (256, 8, &numbers[..16], &[2; 8][..], 1206),
        (256, 8, &numbers[..], &[256; 8][..], 5270),
    ] {
        let family = Family {
            chains,
            counts,
            total,
        };
        family_trip(&rt, &vertices[..n], &levels[..m], &family, size)?;
    }
    Ok(())
}

// The records of the chains 0 1 and 0 1 and the total (1, 2), byte by byte.
static RECORDS: [u8; 38] = [
    4, 0, 0, 0, 4, 0, 0, 0, 1, 0, 4, 0, 0, 0, 4, 0, 0, 0, 1, 0, 12, 0, 0, 0, 5, 0, 1, 0, 0, 0, 2,
    0, 0, 0, 0, 0, 0, 0,
];

#[test]
fn small_records(rt: HostRuntime) -> Result<(), Fail> {
    let mut place = ChainPlace {
        numbers: [9; 2048],
        counts: [7; 8],
    };
    let claim = read_chains(&RECORDS, 2, 2, &mut place)?;
    assert_eq!(&rt;
        claim,
        Claim {
            vertices: 4,
            total: (1, 2)
        }
    );
    assert_eq!(&rt; place.numbers.get(..5), Some([0, 1, 0, 1, 9].as_slice()));
    assert_eq!(&rt; place.counts, [2, 2, 7, 7, 7, 7, 7, 7]);
    Ok(())
}

// Records are refused with this fault, and the place keeps its contents.
fn records_refused(rt: &impl Abort, records: &[u8], n: usize, m: usize, cause: Cause, at: usize) {
    let mut place = ChainPlace {
        numbers: [9; 2048],
        counts: [7; 8],
    };
    let answer = read_chains(records, n, m, &mut place);
    assert_eq!(rt; answer, Err(Fault::new(cause, Layer::Pack, at)));
    assert!(rt; place.numbers.iter().all(|number| *number == 9));
    assert_eq!(rt; place.counts, [7; 8]);
}

#[test]
fn refused_limits(rt: HostRuntime) {
    for (n, m, place) in [
        (1, 0, 0),
        (257, 9, 0),
        (2, 0, 1),
        (256, 9, 1),
        (usize::MAX, 1, 0),
        (2, usize::MAX, 1),
    ] {
        records_refused(&rt, &RECORDS, n, m, Cause::Limits, place);
    }
}

#[test]
fn refused_records(rt: HostRuntime) {
    for (at, byte, cause, place) in [
        (4, 5, Cause::WrongKind, 0),
        (0, 2, Cause::WrongLength, 0),
        (0, 5, Cause::WrongLength, 0),
        (10, 6, Cause::WrongLength, 10),
        (14, 3, Cause::WrongKind, 10),
        (24, 4, Cause::WrongKind, 20),
        (20, 13, Cause::WrongLength, 20),
    ] {
        let mut records = RECORDS;
        if let Some(place) = records.get_mut(at) {
            *place = byte;
        }
        records_refused(&rt, &records, 2, 2, cause, place);
    }
    records_refused(&rt, &RECORDS[..5], 2, 2, Cause::RunsOut, 0);
    records_refused(&rt, &RECORDS[..9], 2, 2, Cause::RunsOut, 0);
    records_refused(&rt, &RECORDS[..10], 2, 2, Cause::RunsOut, 10);
    records_refused(&rt, &RECORDS[..20], 2, 2, Cause::RunsOut, 20);
    records_refused(&rt, &RECORDS[..37], 2, 2, Cause::RunsOut, 20);
    records_refused(&rt, &RECORDS, 2, 1, Cause::WrongKind, 10);
}

#[test]
fn left_over(rt: HostRuntime) {
    let mut records = [0; 39];
    records[..38].copy_from_slice(&RECORDS);
    records_refused(&rt, &records, 2, 2, Cause::LeftOver, 38);
}
