// Short scripts, and scripts with a line that cannot be read.
use crate::script::{Edit, ScriptError, read_script};
use std::alloc::Global;
use std::process::Abort;
use std::test::Fail;

// The script is read as these edits.
fn is_read(rt: &impl Abort, heap: Global, script: &[u8], edits: &[Edit]) -> Result<(), Fail> {
    let read = read_script(heap, script)?;
    assert_eq!(rt; read.as_slice(), edits);
    Ok(())
}

// The line of the script, if one cannot be read.
fn unreadable_line(heap: Global, script: &[u8]) -> Option<usize> {
    match read_script(heap, script) {
        Err(ScriptError::Line(n)) => Some(n),
        _ => None,
    }
}

#[test]
fn scripts_without_edits(rt: HostRuntime) -> Result<(), Fail> {
    is_read(&rt, rt.alloc(), b"", &[])?;
    is_read(&rt, rt.alloc(), b"\n \t\r\n\n", &[])?;
    is_read(&rt, rt.alloc(), b"# pin 1\n  #\n#draw", &[])
}

#[test]
fn each_edit(rt: HostRuntime) -> Result<(), Fail> {
    let script = b"pin 3\nrelease 4\nretune 2 50\ndraw\n";
    let edits = [
        Edit::Pin(3),
        Edit::Release(4),
        Edit::Retune(2, 50),
        Edit::Draw,
    ];
    is_read(&rt, rt.alloc(), script, &edits)
}

#[test]
fn edits_between_blank_lines_and_comments(rt: HostRuntime) -> Result<(), Fail> {
    let script = b"# first\n\n \tpin   007\t\r\n#release 4\ndraw";
    is_read(&rt, rt.alloc(), script, &[Edit::Pin(7), Edit::Draw])
}

#[test]
fn largest_numbers(rt: HostRuntime) -> Result<(), Fail> {
    let script = b"pin 4294967295\nrelease 4294967295\nretune 4294967295 4294967295\nretune 0 0";
    let edits = [
        Edit::Pin(4_294_967_295),
        Edit::Release(4_294_967_295),
        Edit::Retune(4_294_967_295, 4_294_967_295),
        Edit::Retune(0, 0),
    ];
    is_read(&rt, rt.alloc(), script, &edits)
}

#[test]
fn lines_that_cannot_be_read(rt: HostRuntime) {
    for line in [
        b"undo".as_slice(),
        b"Draw",
        b"pins 1",
        b"pin",
        b"pin 1 2",
        b"pin 4294967296",
        b"pin -1",
        b"pin one",
        b"pin 1 # corner",
        b"release",
        b"release 1 2",
        b"release +1",
        b"retune 1",
        b"retune 1 2 3",
        b"retune x 2",
        b"retune 1 4294967296",
        b"draw 1",
        b"\xff",
    ] {
        assert_eq!(rt; unreadable_line(rt.alloc(), line), Some(1));
    }
}

#[test]
fn first_of_the_lines_that_cannot_be_read(rt: HostRuntime) {
    let script = b"pin 1\n\n# a corner\npin\ndraw\nundo\n";
    assert_eq!(rt; unreadable_line(rt.alloc(), script), Some(4));
}

#[test]
fn errors_as_text(rt: HostRuntime) -> Result<(), Fail> {
    let line = format!(in rt.alloc(); "{}", ScriptError::Line(12))?;
    assert_eq!(rt;
        line.as_str(),
        "line 12: expected pin V, release V, retune K T or draw"
    );
    let memory = format!(in rt.alloc(); "{}", ScriptError::OutOfMemory)?;
    assert_eq!(rt; memory.as_str(), "out of memory");
    Ok(())
}
