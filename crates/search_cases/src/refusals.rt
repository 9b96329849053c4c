// The search refuses in the order: number of levels, the levels one by one, grades, prices, stays. A refusal leaves the memory as it was.
use crate::memory::level;
use lines::fault::{Cause, Fault, Layer};
use lines::level::Level;
use lines::line::Line;
use measures::segment::Segment;
use prices::count::Count;
use prices::price::Price;
use search::least::find_least;
use std::process::Abort;
use std::test::Fail;

// How many grades, prices and stays are lent.
#[derive(Clone, Copy)]
struct Room(usize, usize, usize);

const NONE: Room = Room(0, 0, 0);

// Enough for nine levels of two vertices.
const ALL: Room = Room(4, 36, 2);

// The search on the line (0, 0) (1, 0), in memory of noise; a refusal leaves the noise.
fn answer(rt: &impl Abort, levels: &[Level], room: Room) -> Result<Count, Fault> {
    let mut grades = [77u8; 4];
    let mut prices = [Count { count: 77 }; 36];
    let mut stays = [77u8; 2];
    let answer = find_least(
        &Segment,
        &Line::built_in(),
        levels,
        &mut grades[0..room.0.min(4)],
        &mut prices[0..room.1.min(36)],
        &mut stays[0..room.2.min(2)],
    );
    if answer.is_err() {
        assert!(rt; grades.iter().all(|grade| *grade == 77), "grades");
        assert!(rt; prices.iter().all(|price| price.count == 77), "prices");
        assert!(rt; stays.iter().all(|stay| *stay == 77), "stays");
    }
    answer
}

// The search refuses with this fault.
fn refuses(
    rt: &impl Abort,
    levels: &[Level],
    room: Room,
    cause: Cause,
    place: usize,
) -> Result<(), Fail> {
    let fault = Fault::new(cause, Layer::Sheet, place);
    assert_eq!(rt; answer(rt, levels, room).err(), Some(fault));
    Ok(())
}

#[test]
fn levels_are_judged_first(rt: HostRuntime) -> Result<(), Fail> {
    let nine = [level(1, 1); 9];
    let too_large = [level(32769, 0)];
    let not_rising = [level(1, 1), level(1, 0)];
    let no_weight = [level(1, 0)];
    let too_heavy = [level(1, 1001), level(1, 1)];
    for room in [NONE, ALL] {
        refuses(&rt, &[], room, Cause::Limits, 1)?;
        refuses(&rt, &nine, room, Cause::Limits, 1)?;
        refuses(&rt, &too_large, room, Cause::Tolerance, 1)?;
        refuses(&rt, &not_rising, room, Cause::Tolerance, 2)?;
        refuses(&rt, &no_weight, room, Cause::Weight, 1)?;
        refuses(&rt, &too_heavy, room, Cause::Weight, 1)?;
    }
    Ok(())
}

#[test]
fn memory_is_judged_last(rt: HostRuntime) -> Result<(), Fail> {
    let one = [level(32768, 1000)];
    refuses(&rt, &one, Room(3, 3, 1), Cause::Memory, 0)?;
    refuses(&rt, &one, Room(4, 3, 1), Cause::Memory, 1)?;
    refuses(&rt, &one, Room(4, 4, 1), Cause::Memory, 2)?;
    assert_eq!(rt; answer(&rt, &one, Room(4, 4, 2))?.form(), (1000, 0));
    let two = [level(0, 1), level(1, 2)];
    refuses(&rt, &two, Room(4, 7, 2), Cause::Memory, 1)?;
    assert_eq!(rt; answer(&rt, &two, Room(4, 8, 2))?.form(), (3, 0));
    Ok(())
}
