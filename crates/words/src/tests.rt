// Lines, words and numbers of short texts.
use crate::{lines, signed_number, whole_number, words};
use std::alloc::Global;
use std::process::Abort;
use std::test::Fail;

// The lines of the text are these.
fn has_lines(rt: &impl Abort, heap: Global, text: &[u8], expected: &[&[u8]]) -> Result<(), Fail> {
    let read = lines(heap, text)?;
    assert_eq!(rt; read.as_slice(), expected);
    Ok(())
}

// The words of the line are these.
fn has_words(rt: &impl Abort, heap: Global, line: &[u8], expected: &[&[u8]]) -> Result<(), Fail> {
    let read = words(heap, line)?;
    assert_eq!(rt; read.as_slice(), expected);
    Ok(())
}

#[test]
fn lines_end_at_line_feeds(rt: HostRuntime) -> Result<(), Fail> {
    has_lines(&rt, rt.alloc(), b"", &[])?;
    has_lines(&rt, rt.alloc(), b"\n", &[b""])?;
    has_lines(&rt, rt.alloc(), b"pin 3\nfree\n", &[b"pin 3", b"free"])?;
    has_lines(&rt, rt.alloc(), b"pin 3\nfree", &[b"pin 3", b"free"])?;
    has_lines(&rt, rt.alloc(), b"a\n\nb\n\n", &[b"a", b"", b"b", b""])?;
    has_lines(&rt, rt.alloc(), b"a\r\n\r\n", &[b"a\r", b"\r"])
}

#[test]
fn words_stand_between_blanks(rt: HostRuntime) -> Result<(), Fail> {
    has_words(&rt, rt.alloc(), b"", &[])?;
    has_words(&rt, rt.alloc(), b" \t \r", &[])?;
    has_words(&rt, rt.alloc(), b"pin 3\r", &[b"pin", b"3"])?;
    has_words(&rt, rt.alloc(), b"\t  level\t1 ", &[b"level", b"1"])
}

#[test]
fn numbers_in_digits(rt: HostRuntime) -> Result<(), Fail> {
    assert_eq!(rt; whole_number(b"0"), Some(0));
    assert_eq!(rt; whole_number(b"007"), Some(7));
    assert_eq!(rt; whole_number(b"4294967295"), Some(u32::MAX));
    Ok(())
}

#[test]
fn words_that_are_no_number(rt: HostRuntime) -> Result<(), Fail> {
    for word in [
        b"".as_slice(),
        b"4294967296",
        b"+1",
        b"-1",
        b"12a",
        b"1 2",
        b"\xb9",
    ] {
        assert!(rt; whole_number(word).is_none());
    }
    Ok(())
}

#[test]
fn numbers_with_a_sign(rt: HostRuntime) -> Result<(), Fail> {
    assert_eq!(rt; signed_number(b"7"), Some(7));
    assert_eq!(rt; signed_number(b"-7"), Some(-7));
    assert_eq!(rt; signed_number(b"-007"), Some(-7));
    assert_eq!(rt; signed_number(b"-0"), Some(0));
    assert_eq!(rt; signed_number(b"4294967295"), Some(4_294_967_295));
    assert_eq!(rt; signed_number(b"-4294967295"), Some(-4_294_967_295));
    Ok(())
}

#[test]
fn words_that_are_no_signed_number(rt: HostRuntime) -> Result<(), Fail> {
    for word in [
        b"".as_slice(),
        b"-",
        b"--1",
        b"+5",
        b"-+5",
        b"0-5",
        b"1.5",
        b"1e3",
        b"- 1",
        b"4294967296",
        b"-4294967296",
    ] {
        assert!(rt; signed_number(word).is_none());
    }
    Ok(())
}
