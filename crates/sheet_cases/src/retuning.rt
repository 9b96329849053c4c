// Retuning: after it, a sheet draws as one that was opened with those tolerances.
use crate::examples::{FREE, PINNED, seven};
use crate::memory::{at, draws, level};
use approvals::approvals::Approvals;
use lines::fault::{Cause, Fault, Layer};
use lines::line::Line;
use measures::segment::Segment;
use prices::count::Count;
use sheets::sheet::Sheet;
use std::test::Fail;

// A level and its new tolerance, the tolerances after it, the total and the stays.
struct Step(usize, u32, [u32; 2], u32, [u8; 7]);

static STEPS: [Step; 6] = [
    Step(1, 0, [0, 2], 18, PINNED),
    Step(2, 1, [0, 1], 21, [2, 2, 1, 1, 1, 2, 2]),
    Step(2, 2, [0, 2], 18, PINNED),
    Step(1, 1, [1, 2], 15, FREE),
    Step(2, 3, [1, 3], 15, FREE),
    Step(1, 2, [2, 3], 10, [2, 0, 0, 2, 0, 0, 2]),
];

#[test]
fn as_if_opened_so(rt: HostRuntime) -> Result<(), Fail> {
    let vertices = [at(0, 0); 7];
    let mut line = Line::built_in();
    line.make(&vertices)?;
    let mut sheet = Sheet::<Approvals, Count>::open(7, &[level(1, 2), level(2, 3)], seven()?)?;
    draws(&rt, &sheet, &line, (15, 0), &FREE)?;
    for step in &STEPS {
        sheet.retune(step.0, step.1)?;
        draws(&rt, &sheet, &line, (step.3, 0), &step.4)?;
        let levels = [level(step.2[0], 2), level(step.2[1], 3)];
        let opened = Sheet::<Approvals, Count>::open(7, &levels, seven()?)?;
        draws(&rt, &opened, &line, (step.3, 0), &step.4)?;
    }
    Ok(())
}

// Of three levels, with the tolerances 5, 10 and 20. Each answer goes by the tolerances that those before it left.
#[test]
fn between_its_neighbours(rt: HostRuntime) -> Result<(), Fail> {
    let levels = [level(5, 1), level(10, 1), level(20, 1)];
    let mut sheet = Sheet::<Segment, Count>::open(2, &levels, Segment)?;
    let steps = [
        (2, 5, Some(Cause::Tolerance)),
        (2, 20, Some(Cause::Tolerance)),
        (2, 10, None),
        (2, 6, None),
        (2, 19, None),
        (1, 19, Some(Cause::Tolerance)),
        (1, 18, None),
        (1, 0, None),
        (3, 19, Some(Cause::Tolerance)),
        (3, 32769, Some(Cause::Tolerance)),
        (3, 32768, None),
        (2, 32768, Some(Cause::Tolerance)),
        (2, 32767, None),
        (0, 1, Some(Cause::Level)),
        (4, 32769, Some(Cause::Level)),
        (usize::MAX, 1, Some(Cause::Level)),
    ];
    for (k, t, cause) in steps {
        let fault = cause.map(|cause| Fault::new(cause, Layer::Sheet, k));
        assert_eq!(rt; sheet.retune(k, t).err(), fault, "level {k} to {t}");
    }
    Ok(())
}
