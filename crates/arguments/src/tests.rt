// What arguments ask for, a leading --progress, and where the help is printed.
use super::{Asked, asked, begin_with, take_progress};
use std::cell::Cell;
use std::fmt::Display;
use std::io;
use std::io::{Eprint, Print};
use std::test::Fail;

// The words of a line.
fn words(rt: &HostRuntime, line: &str) -> Result<Vec<String>, Fail> {
    let mut words = Vec::new(rt.alloc());
    for word in line.split_whitespace() {
        words.push(String::from_str(rt.alloc(), word)?)?;
    }
    Ok(words)
}

// What the words of a line ask for, as arguments.
fn asks(rt: &HostRuntime, line: &str, wanted: usize) -> Result<Asked, Fail> {
    Ok(asked(words(rt, line)?.as_slice(), wanted))
}

#[test]
fn arguments_ask_for_work_or_help(rt: HostRuntime) -> Result<(), Fail> {
    for (line, wanted, answer) in [
        ("", 0, Asked::Work),
        ("x", 0, Asked::Unknown),
        ("--help", 0, Asked::Help),
        ("x --help", 0, Asked::Help),
        ("--helpe", 0, Asked::Unknown),
        ("--hel", 0, Asked::Unknown),
        ("", 1, Asked::Unknown),
        ("x", 1, Asked::Work),
        ("--help", 1, Asked::Help),
        ("x y", 1, Asked::Unknown),
    ] {
        assert_eq!(rt; asks(&rt, line, wanted)?, answer);
    }
    Ok(())
}

#[test]
fn progress_stands_first(rt: HostRuntime) -> Result<(), Fail> {
    for (line, progress, rest) in [
        ("", false, ""),
        ("x", false, "x"),
        ("--progress", true, ""),
        ("--progress x y", true, "x y"),
        ("x --progress", false, "x --progress"),
        ("--progress --progress", true, "--progress"),
        ("--progres x", false, "--progres x"),
        ("--progress=1", false, "--progress=1"),
    ] {
        let mut arguments = words(&rt, line)?;
        assert_eq!(rt; take_progress(&mut arguments), progress);
        assert_eq!(rt; arguments, words(&rt, rest)?);
    }
    Ok(())
}

// How many texts were printed, and how many were told as errors are.
#[derive(Drop)]
struct Desk {
    printed: Cell<usize>,
    told: Cell<usize>,
}

impl Print for Desk {
    fn print<D: Display + Drop>(&self, _value: D) -> io::Result<()> {
        self.printed.set(self.printed.get().saturating_add(1));
        Ok(())
    }

    fn println<D: Display + Drop>(&self, value: D) -> io::Result<()> {
        self.print(value)
    }

    fn write_all(&self, _bytes: &[u8]) -> io::Result<()> {
        Ok(())
    }
}

impl Eprint for Desk {
    fn eprint<D: Display + Drop>(&self, _value: D) -> io::Result<()> {
        self.told.set(self.told.get().saturating_add(1));
        Ok(())
    }

    fn eprintln<D: Display + Drop>(&self, value: D) -> io::Result<()> {
        self.eprint(value)
    }
}

#[test]
fn help_is_printed_or_told(rt: HostRuntime) -> Result<(), Fail> {
    for (line, printed, told) in [("", 0, 0), ("--help", 1, 0), ("x", 0, 1)] {
        let desk = Desk {
            printed: Cell::new(0),
            told: Cell::new(0),
        };
        let _ = begin_with(&desk, words(&rt, line)?, 0, "help");
        assert_eq!(rt; (desk.printed.get(), desk.told.get()), (printed, told));
    }
    Ok(())
}
