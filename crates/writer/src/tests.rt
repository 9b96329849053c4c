// Tests of the writer: the worked pack, every refusal, and the limits.
use crate::family::{Family, write_family};
use crate::job::write_job;
use lines::fault::{Cause, Fault, Layer};
use lines::level::Level;
use lines::line::Line;
use lines::vertex::Vertex;
use marker::pack::mark_pack;
use std::process::Abort;
use std::test::Fail;

// What stands in lent bytes before a call.
const NOISE: u8 = 170;

static FIVE: [Vertex; 5] = [
    Vertex { x: 0, y: 0 },
    Vertex { x: 2, y: 1 },
    Vertex { x: 4, y: 0 },
    Vertex { x: 6, y: 3 },
    Vertex { x: 8, y: 0 },
];

static LEVELS: [Level; 2] = [
    Level {
        tolerance: 1,
        weight: 1,
    },
    Level {
        tolerance: 3,
        weight: 1,
    },
];

// The family of the worked pack.
static FAMILY: Family = Family {
    chains: &[0, 2, 3, 4, 0, 4],
    counts: &[4, 2],
    total: (4, 0),
};

// The job of the worked pack, byte by byte.
static JOB: [u8; 56] = [
    2, 0, 0, 0, 1, 0, 1, 1, 20, 0, 0, 0, 2, 0, 0, 0, 0, 0, 2, 0, 1, 0, 4, 0, 0, 0, 6, 0, 3, 0, 8,
    0, 0, 0, 16, 0, 0, 0, 3, 0, 1, 0, 0, 0, 1, 0, 0, 0, 3, 0, 0, 0, 1, 0, 0, 0,
];

fn five<'a>() -> Result<Line<'a>, Fault> {
    let mut line = Line::built_in();
    line.make(&FIVE)?;
    Ok(line)
}

#[test]
fn the_worked_job(rt: HostRuntime) -> Result<(), Fail> {
    let mut bytes = [NOISE; 60];
    assert_eq!(&rt; write_job(1, 1, &five()?, &LEVELS, &mut bytes)?, 56);
    assert_eq!(&rt; bytes.get(..56), Some(JOB.as_slice()));
    assert_eq!(&rt; bytes.get(56..), Some([NOISE; 4].as_slice()));
    Ok(())
}

// A job is refused with this fault, and all bytes keep their contents.
fn job_refused(
    rt: &impl Abort,
    measure: u8,
    price: u8,
    levels: &[Level],
    room: usize,
    fault: Fault,
) -> Result<(), Fail> {
    let mut bytes = [NOISE; 200];
    let lent = room.min(200);
    let answer = write_job(measure, price, &five()?, levels, &mut bytes[..lent]);
    assert_eq!(rt; answer, Err(fault));
    assert!(rt; bytes.iter().all(|byte| *byte == NOISE));
    Ok(())
}

#[test]
fn refused_jobs(rt: HostRuntime) -> Result<(), Fail> {
    let flat = [LEVELS[0]; 9];
    let heavy = [Level {
        tolerance: 1,
        weight: 1001,
    }];
    let high = [Level {
        tolerance: 32_769,
        weight: 1,
    }];
    for (measure, price, levels, room, cause, place) in [
        (0, 0, &flat[..0], 0, Cause::Limits, 1),
        (0, 0, &flat[..], 0, Cause::Limits, 1),
        (0, 0, &flat[..2], 0, Cause::Unknown, 0),
        (4, 1, &flat[..2], 0, Cause::Unknown, 0),
        (1, 0, &flat[..2], 0, Cause::Unknown, 1),
        (1, 3, &flat[..2], 0, Cause::Unknown, 1),
        (1, 1, &flat[..2], 0, Cause::Tolerance, 2),
        (1, 1, &high[..], 0, Cause::Tolerance, 1),
        (1, 1, &heavy[..], 0, Cause::Weight, 1),
        (1, 1, &LEVELS[..], 55, Cause::Memory, 3),
    ] {
        let fault = Fault::new(cause, Layer::Pack, place);
        job_refused(&rt, measure, price, levels, room, fault)?;
    }
    Ok(())
}

#[test]
fn the_worked_family(rt: HostRuntime) -> Result<(), Fail> {
    let mut bytes = [NOISE; 100];
    assert_eq!(&rt;
        write_family(1, 1, &five()?, &LEVELS, &FAMILY, &mut bytes)?,
        98
    );
    let pack = bytes.get(..98).unwrap_or_default();
    assert_eq!(&rt; pack.get(..56), Some(JOB.as_slice()));
    assert_eq!(&rt; bytes.get(98..), Some([NOISE; 2].as_slice()));
    assert_eq!(&rt; mark_pack(pack), Ok((4, 0)));
    Ok(())
}

// A family is refused with this fault, and all bytes keep their contents.
fn family_refused(
    rt: &impl Abort,
    counts: &[usize],
    room: usize,
    cause: Cause,
    place: usize,
) -> Result<(), Fail> {
    let mut bytes = [NOISE; 200];
    let lent = room.min(200);
    let family = Family { counts, ..FAMILY };
    let answer = write_family(1, 1, &five()?, &LEVELS, &family, &mut bytes[..lent]);
    assert_eq!(rt; answer, Err(Fault::new(cause, Layer::Pack, place)));
    assert!(rt; bytes.iter().all(|byte| *byte == NOISE));
    Ok(())
}

#[test]
fn refused_families(rt: HostRuntime) -> Result<(), Fail> {
    for (counts, room, cause, place) in [
        (&[6][..], 0, Cause::WrongLength, 0),
        (&[2, 2, 2][..], 0, Cause::WrongLength, 0),
        (&[4, 1][..], 0, Cause::WrongLength, 0),
        (&[4, 3][..], 0, Cause::WrongLength, 0),
        (&[usize::MAX, 7][..], 0, Cause::WrongLength, 0),
        (&[1, 5][..], 0, Cause::WrongLength, 1),
        (&[5, 1][..], 0, Cause::WrongLength, 2),
        (&[6, 0][..], 0, Cause::WrongLength, 1),
        (&[4, 2][..], 97, Cause::Memory, 3),
    ] {
        family_refused(&rt, counts, room, cause, place)?;
    }
    Ok(())
}
