// What the answers to calls should be, to be held against those of a sheet.
use lines::fault::{Cause, Fault, Layer};
use prices::price::Price;
use sheets::call::{Answer, Outcome};
use std::alloc::{AllocError, Global};
use std::process::Abort;
use std::test::Fail;

// What an answer should be: a draw goes by the form of its total and by its stays, a refusal by cause, layer and place.
#[derive(Clone, Copy)]
pub(crate) enum Reply<'a> {
    Done,
    Drew((u32, u64), &'a [u8]),
    Refused(Cause, Layer, usize),
    // no call was tried: the place holds what it held before
    Untried,
}

// What a place for an answer holds before: a fault that no sheet answers.
fn untried() -> Fault {
    Fault::new(Cause::Total, Layer::Marker, 77)
}

// So many places for answers.
pub(crate) fn places<P: Price>(heap: Global, count: usize) -> Result<Vec<Answer<P>>, AllocError> {
    let mut places = Vec::new(heap);
    for _ in 0..count {
        places.push(Err(untried()))?;
    }
    Ok(places)
}

// An answer is as it should be.
fn answers<P: Price>(rt: &impl Abort, answer: &Answer<P>, reply: Reply) -> Result<(), Fail> {
    match (answer, reply) {
        (Ok(Outcome::Done), Reply::Done) => Ok(()),
        (Ok(Outcome::Drew(drawn)), Reply::Drew(form, stays)) => {
            assert_eq!(rt; drawn.total.form(), form);
            assert!(rt; drawn.stays.iter().eq(stays.iter()), "stays");
            Ok(())
        }
        (Err(fault), Reply::Refused(cause, layer, place)) => {
            assert_eq!(rt; *fault, Fault::new(cause, layer, place));
            Ok(())
        }
        (Err(fault), Reply::Untried) => {
            assert_eq!(rt; *fault, untried());
            Ok(())
        }
        _ => Err(Fail::new("another answer")),
    }
}

// All answers are as they should be.
pub(crate) fn all_answer<P: Price>(
    rt: &impl Abort,
    all: &[Answer<P>],
    replies: &[Reply],
) -> Result<(), Fail> {
    assert_eq!(rt; all.len(), replies.len());
    for (answer, reply) in all.iter().zip(replies) {
        answers(rt, answer, *reply)?;
    }
    Ok(())
}
