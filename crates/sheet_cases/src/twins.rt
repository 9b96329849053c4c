// Two sheets in the same memories.
use crate::examples::{FREE, PINNED, one_and_two, seven};
use crate::memory::{Memory, NOISE, at, enough, level, room};
use crate::replies::{Reply, all_answer, places};
use approvals::approvals::Approvals;
use lines::fault::{Cause, Fault, Layer};
use lines::level::Level;
use prices::count::Count;
use prices::count_then_area::CountThenArea;
use prices::price::Price;
use sheets::call::{Answer, Call, Outcome};
use sheets::replay::{Plan, twin};
use std::process::Abort;
use std::test::Fail;

// A number of vertices and two levels to open a sheet with.
type Opening = (usize, [Level; 2]);

// What two sheets answered, each with three places for answers, and the memories after them.
#[derive(Drop)]
struct Both<P> {
    done: Result<(usize, usize), Fault>,
    first: Vec<Answer<P>>,
    second: Vec<Answer<P>>,
    memory: Memory<P>,
}

// Tries a draw, the pin of 3 and a draw on the first sheet, and the pin of 3 and a draw on the second.
fn tried<P: Price>(
    rt: &(impl Abort + AllocGlobal),
    first: &Opening,
    second: &Opening,
) -> Result<Both<P>, Fail> {
    let vertices = [at(0, 0); 7];
    let draw = Call::Draw(&vertices, enough());
    let calls = [draw, Call::Pin(3), draw];
    let mut memory = Memory::<P>::filled(rt.alloc(), enough(), NOISE)?;
    let mut answers = places::<P>(rt.alloc(), 3)?;
    let mut others = places::<P>(rt.alloc(), 3)?;
    let done = twin::<Approvals, P>(
        Plan {
            n: first.0,
            levels: &first.1,
            measure: seven()?,
            calls: &calls,
        },
        Plan {
            n: second.0,
            levels: &second.1,
            measure: seven()?,
            calls: &calls[1..],
        },
        memory.grades.as_mut_slice(),
        memory.prices.as_mut_slice(),
        memory.stays.as_mut_slice(),
        answers.as_mut_slice(),
        others.as_mut_slice(),
    );
    Ok(Both {
        done,
        first: answers,
        second: others,
        memory,
    })
}

// The total of a draw.
fn total<P: Price>(answer: &Answer<P>) -> Option<P> {
    match answer {
        Ok(Outcome::Drew(drawn)) => Some(drawn.total),
        _ => None,
    }
}

// The second sheet has lower tolerances and at its draw no pin less than the first: none of its totals is cheaper.
fn tightened<P: Price>(rt: &(impl Abort + AllocGlobal)) -> Result<(), Fail> {
    let tight = (7, [level(0, 1), level(1, 1)]);
    let both = tried::<P>(rt, &(7, one_and_two()), &tight)?;
    assert_eq!(rt; both.done?, (3, 2));
    let replies = [
        Reply::Drew((6, 0), &FREE),
        Reply::Done,
        Reply::Drew((8, 0), &PINNED),
    ];
    all_answer(rt, both.first.as_slice(), &replies)?;
    let tight_replies = [Reply::Done, Reply::Drew((12, 0), &[2; 7]), Reply::Untried];
    all_answer(rt, both.second.as_slice(), &tight_replies)?;
    for loose in both.first.iter().filter_map(total) {
        for tight in both.second.iter().filter_map(total) {
            assert!(rt; loose.not_dearer(tight));
        }
    }
    Ok(())
}

#[test]
fn the_tighter_is_not_cheaper(rt: HostRuntime) -> Result<(), Fail> {
    tightened::<Count>(&rt)?;
    tightened::<CountThenArea>(&rt)
}

// With these two openings no call is tried, and the first fault is told.
fn refused(
    rt: &(impl Abort + AllocGlobal),
    first: &Opening,
    second: &Opening,
    cause: Cause,
    place: usize,
) -> Result<(), Fail> {
    let both = tried::<Count>(rt, first, second)?;
    let fault = Fault::new(cause, Layer::Sheet, place);
    assert_eq!(rt; both.done.err(), Some(fault));
    assert!(rt; both.memory.keeps(NOISE, room(0, 0, 0)), "memory");
    let untried = [Reply::Untried; 3];
    all_answer(rt, both.first.as_slice(), &untried)?;
    all_answer(rt, both.second.as_slice(), &untried)
}

#[test]
fn an_opening_that_is_refused(rt: HostRuntime) -> Result<(), Fail> {
    let lawful = (7, one_and_two());
    let one_vertex = (1, one_and_two());
    let weightless = (7, [level(1, 1), level(2, 0)]);
    refused(&rt, &one_vertex, &lawful, Cause::Limits, 0)?;
    refused(&rt, &lawful, &weightless, Cause::Weight, 2)?;
    refused(&rt, &weightless, &one_vertex, Cause::Weight, 2)?;
    refused(&rt, &one_vertex, &weightless, Cause::Limits, 0)
}
