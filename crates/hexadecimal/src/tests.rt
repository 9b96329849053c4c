use crate::unhex;
use std::alloc::Global;
use std::process::Abort;
use std::test::Fail;

// The text is read as these bytes.
fn reads(rt: &impl Abort, heap: Global, text: &[u8], bytes: &[u8]) -> Result<(), Fail> {
    let Some(read) = unhex(heap, text)? else {
        return Err(Fail::from("no bytes"));
    };
    assert_eq!(rt; read.as_slice(), bytes);
    Ok(())
}

#[test]
fn digits_in_either_case(rt: HostRuntime) -> Result<(), Fail> {
    reads(&rt, rt.alloc(), b"", &[])?;
    reads(&rt, rt.alloc(), b"00ff7F", &[0, 255, 127])?;
    reads(&rt, rt.alloc(), b"09afAF", &[9, 175, 175])
}

#[test]
fn no_text_of_digits(rt: HostRuntime) -> Result<(), Fail> {
    for text in [
        b"0".as_slice(),
        b"123",
        b"0g",
        b"g0",
        b"1:",
        b"/1",
        b"@0",
        b"G0",
        b"`0",
        b"12 3",
    ] {
        assert!(rt; unhex(rt.alloc(), text)?.is_none());
    }
    Ok(())
}
