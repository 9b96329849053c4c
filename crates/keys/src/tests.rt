// Keys of the worked job, of the longest job, and of what is no job pack.
use crate::key::key_pack;
use drawings::drawing::DrawError;
use lines::fault::{Cause, Fault, Layer};
use lines::level::Level;
use lines::line::Line;
use lines::vertex::Vertex;
use marker::pack::mark_pack;
use std::alloc::Global;
use std::process::Abort;
use std::test::Fail;
use writer::job::write_job;

// The family pack of the worked job, of which the first 56 bytes are the job pack.
static FAMILY: [u8; 98] = [
    2, 0, 0, 0, 1, 0, 1, 1, 20, 0, 0, 0, 2, 0, 0, 0, 0, 0, 2, 0, 1, 0, 4, 0, 0, 0, 6, 0, 3, 0, 8,
    0, 0, 0, 16, 0, 0, 0, 3, 0, 1, 0, 0, 0, 1, 0, 0, 0, 3, 0, 0, 0, 1, 0, 0, 0, 8, 0, 0, 0, 4, 0,
    0, 0, 2, 0, 3, 0, 4, 0, 4, 0, 0, 0, 4, 0, 0, 0, 4, 0, 12, 0, 0, 0, 5, 0, 4, 0, 0, 0, 0, 0, 0,
    0, 0, 0, 0, 0,
];

#[test]
fn the_worked_job(rt: HostRuntime) -> Result<(), Fail> {
    let key = key_pack(rt.alloc(), &FAMILY[..56])?;
    assert!(&rt; key.as_slice() == FAMILY.as_slice());
    Ok(())
}

// These bytes have no key: the reader refuses them with this fault.
fn no_key(
    rt: &impl Abort,
    heap: Global,
    bytes: &[u8],
    cause: Cause,
    place: usize,
) -> Result<(), Fail> {
    let Err(DrawError::Refused(fault)) = key_pack(heap, bytes) else {
        panic!(rt; "no refusal");
    };
    assert_eq!(rt; fault, Fault::new(cause, Layer::Pack, place));
    Ok(())
}

#[test]
fn no_job_packs(rt: HostRuntime) -> Result<(), Fail> {
    let heap = rt.alloc();
    no_key(&rt, heap, &[], Cause::RunsOut, 0)?;
    no_key(&rt, heap, &FAMILY[..55], Cause::RunsOut, 34)?;
    no_key(&rt, heap, &FAMILY, Cause::LeftOver, 56)
}

// A line of 256 vertices that turns sharply at each: under small tolerances every vertex stays on all of 8 levels.
#[test]
fn the_longest_key(rt: HostRuntime) -> Result<(), Fail> {
    let mut vertices = [Vertex { x: 0, y: -16_000 }; 256];
    for (x, v) in (0..).step_by(64).zip(vertices.iter_mut()) {
        v.x = x;
        if x % 128 == 0 {
            v.y = 16_000;
        }
    }
    let mut line = Line::built_in();
    line.make(&vertices)?;
    let mut levels = [Level {
        tolerance: 0,
        weight: 1_000,
    }; 8];
    for (t, level) in (0..).zip(levels.iter_mut()) {
        level.tolerance = t;
    }
    let mut job = [0; 1_108];
    write_job(1, 1, &line, &levels, &mut job)?;
    let key = key_pack(rt.alloc(), &job)?;
    assert_eq!(&rt; key.len(), 5_270);
    assert_eq!(&rt; mark_pack(key.as_slice()), Ok((2_040_000, 0)));
    Ok(())
}
