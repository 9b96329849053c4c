// Lists of calls that are tried on a sheet, and their answers.
use crate::examples::{FREE, PINNED, one_and_two, seven};
use crate::memory::{Memory, NOISE, at, enough, room};
use crate::replies::{Reply, all_answer, places};
use approvals::approvals::Approvals;
use lines::fault::{Cause, Fault, Layer};
use prices::count::Count;
use prices::count_then_area::CountThenArea;
use prices::price::Price;
use search::room::Room;
use sheets::call::Call;
use sheets::replay::{Plan, replay, trial};
use sheets::sheet::Sheet;
use std::process::Abort;
use std::test::Fail;

// More than there is.
fn all() -> Room {
    room(usize::MAX, usize::MAX, usize::MAX)
}

// Calls on one sheet of seven vertices are answered so, with as many places for answers as there are replies. The memories are larger than need be.
fn tries<P: Price>(
    rt: &(impl Abort + AllocGlobal),
    calls: &[Call],
    replies: &[Reply],
) -> Result<(), Fail> {
    let mut memory = Memory::<P>::filled(rt.alloc(), room(60, 100, 9), NOISE)?;
    let mut answers = places::<P>(rt.alloc(), replies.len())?;
    let plan = Plan {
        n: 7,
        levels: &one_and_two(),
        measure: seven()?,
        calls,
    };
    let done = trial::<Approvals, P>(
        plan,
        memory.grades.as_mut_slice(),
        memory.prices.as_mut_slice(),
        memory.stays.as_mut_slice(),
        answers.as_mut_slice(),
    )?;
    assert_eq!(rt; done, calls.len().min(replies.len()));
    assert!(rt; memory.keeps(NOISE, enough()), "past the cells");
    all_answer(rt, answers.as_slice(), replies)
}

// The worked example as a list of calls, with more places for answers than calls.
#[test]
fn a_pin_its_release_and_a_retuning(rt: HostRuntime) -> Result<(), Fail> {
    let vertices = [at(0, 0); 7];
    let draw = Call::Draw(&vertices, enough());
    let calls = [
        draw,
        Call::Pin(3),
        draw,
        Call::Release(3),
        draw,
        Call::Retune(1, 0),
        draw,
    ];
    let replies = [
        Reply::Drew((6, 0), &FREE),
        Reply::Done,
        Reply::Drew((8, 0), &PINNED),
        Reply::Done,
        Reply::Drew((6, 0), &FREE),
        Reply::Done,
        Reply::Drew((8, 0), &PINNED),
        Reply::Untried,
        Reply::Untried,
    ];
    tries::<Count>(&rt, &calls, &replies)?;
    tries::<CountThenArea>(&rt, &calls, &replies)
}

#[test]
fn an_opening_that_is_refused(rt: HostRuntime) -> Result<(), Fail> {
    let mut memory = Memory::<Count>::filled(rt.alloc(), enough(), NOISE)?;
    let mut answers = places::<Count>(rt.alloc(), 1)?;
    let plan = Plan {
        n: 7,
        levels: &[],
        measure: seven()?,
        calls: &[Call::Pin(3)],
    };
    let done = trial::<Approvals, Count>(
        plan,
        memory.grades.as_mut_slice(),
        memory.prices.as_mut_slice(),
        memory.stays.as_mut_slice(),
        answers.as_mut_slice(),
    );
    assert_eq!(rt; done, Err(Fault::new(Cause::Limits, Layer::Sheet, 1)));
    assert!(rt; memory.keeps(NOISE, room(0, 0, 0)), "memory");
    all_answer(&rt, answers.as_slice(), &[Reply::Untried])
}

#[test]
fn calls_that_are_refused(rt: HostRuntime) -> Result<(), Fail> {
    let vertices = [at(0, 0); 7];
    let calls = [
        Call::Pin(6),
        Call::Pin(3),
        Call::Pin(3),
        Call::Release(0),
        Call::Release(2),
        Call::Retune(0, 1),
        Call::Retune(1, 2),
        Call::Retune(1, 1),
        Call::Draw(&vertices, enough()),
    ];
    let replies = [
        Reply::Refused(Cause::Vertex, Layer::Sheet, 6),
        Reply::Done,
        Reply::Refused(Cause::Pinned, Layer::Sheet, 3),
        Reply::Refused(Cause::Vertex, Layer::Sheet, 0),
        Reply::Refused(Cause::NotPinned, Layer::Sheet, 2),
        Reply::Refused(Cause::Level, Layer::Sheet, 0),
        Reply::Refused(Cause::Tolerance, Layer::Sheet, 1),
        Reply::Done,
        Reply::Drew((8, 0), &PINNED),
    ];
    tries::<Count>(&rt, &calls, &replies)
}

// A draw is refused, and the next one is as ever.
fn refuses(
    rt: &(impl Abort + AllocGlobal),
    call: Call,
    cause: Cause,
    layer: Layer,
    place: usize,
) -> Result<(), Fail> {
    let vertices = [at(0, 0); 7];
    let calls = [call, Call::Draw(&vertices, all())];
    let replies = [
        Reply::Refused(cause, layer, place),
        Reply::Drew((6, 0), &FREE),
    ];
    tries::<Count>(rt, &calls, &replies)
}

// Vertices that are no line are refused first, then a line of another count.
#[test]
fn draws_of_other_lines(rt: HostRuntime) -> Result<(), Fail> {
    let many = [at(0, 0); 257];
    let mut outside = [at(0, 0); 7];
    outside[4] = at(16384, 0);
    for asked in [room(0, 0, 0), enough()] {
        for count in [0, 1, 257] {
            let draw = Call::Draw(&many[..count], asked);
            refuses(&rt, draw, Cause::Limits, Layer::Content, 0)?;
        }
        let draw = Call::Draw(&outside, asked);
        refuses(&rt, draw, Cause::Coordinate, Layer::Content, 4)?;
        for count in [2, 6, 8, 256] {
            let draw = Call::Draw(&many[..count], asked);
            refuses(&rt, draw, Cause::OtherCount, Layer::Sheet, count)?;
        }
    }
    Ok(())
}

// A draw is lent what it asks for and no more, though there is enough.
#[test]
fn draws_that_ask_for_too_little(rt: HostRuntime) -> Result<(), Fail> {
    let vertices = [at(0, 0); 7];
    for (asked, place) in [
        (room(48, 98, 7), 0),
        (room(48, 97, 6), 0),
        (room(49, 97, 7), 1),
        (room(49, 97, 6), 1),
        (room(49, 98, 6), 2),
    ] {
        let draw = Call::Draw(&vertices, asked);
        refuses(&rt, draw, Cause::Memory, Layer::Sheet, place)?;
    }
    Ok(())
}

// Calls on a sheet are answered so, with as many places for answers as there are replies.
fn replays(
    rt: &(impl Abort + AllocGlobal),
    sheet: &mut Sheet<Approvals, Count>,
    memory: &mut Memory<Count>,
    calls: &[Call],
    replies: &[Reply],
) -> Result<(), Fail> {
    let mut answers = places::<Count>(rt.alloc(), replies.len())?;
    let done = replay(
        sheet,
        calls,
        memory.grades.as_mut_slice(),
        memory.prices.as_mut_slice(),
        memory.stays.as_mut_slice(),
        answers.as_mut_slice(),
    );
    assert_eq!(rt; done, calls.len().min(replies.len()));
    all_answer(rt, answers.as_slice(), replies)
}

// A draw that asks for more than there is gets all of it; where that falls short, the memories are left.
#[test]
fn too_little_memory(rt: HostRuntime) -> Result<(), Fail> {
    let vertices = [at(0, 0); 7];
    let mut sheet = Sheet::<Approvals, Count>::open(7, &one_and_two(), seven()?)?;
    for (held, place) in [
        (room(48, 98, 7), 0),
        (room(49, 97, 7), 1),
        (room(49, 98, 6), 2),
    ] {
        let mut memory = Memory::<Count>::filled(rt.alloc(), held, NOISE)?;
        let calls = [Call::Draw(&vertices, all())];
        let replies = [Reply::Refused(Cause::Memory, Layer::Sheet, place)];
        replays(&rt, &mut sheet, &mut memory, &calls, &replies)?;
        assert!(rt; memory.keeps(NOISE, room(0, 0, 0)), "memory {place}");
    }
    Ok(())
}

// The calls past the places for answers are not tried: 3 stays pinned, and 5 is not.
#[test]
fn fewer_places_than_calls(rt: HostRuntime) -> Result<(), Fail> {
    let vertices = [at(0, 0); 7];
    let draw = Call::Draw(&vertices, enough());
    let mut memory = Memory::<Count>::filled(rt.alloc(), enough(), NOISE)?;
    let mut sheet = Sheet::<Approvals, Count>::open(7, &one_and_two(), seven()?)?;
    let calls = [Call::Pin(3), draw, Call::Release(3), Call::Pin(5)];
    let replies = [Reply::Done, Reply::Drew((8, 0), &PINNED)];
    replays(&rt, &mut sheet, &mut memory, &calls, &replies)?;
    let after = [Call::Release(5), draw];
    let replies_after = [
        Reply::Refused(Cause::NotPinned, Layer::Sheet, 5),
        Reply::Drew((8, 0), &PINNED),
    ];
    replays(&rt, &mut sheet, &mut memory, &after, &replies_after)?;
    replays(&rt, &mut sheet, &mut memory, &[Call::Release(3)], &[])?;
    replays(&rt, &mut sheet, &mut memory, &[], &[Reply::Untried])?;
    replays(&rt, &mut sheet, &mut memory, &after, &replies_after)
}
