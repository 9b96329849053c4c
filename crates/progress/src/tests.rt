// The line, when it is due, and a clock that is set by hand.
use crate::line::{Progress, is_due};
use crate::teller::Teller;
use std::cell::Cell;
use std::fmt::Display;
use std::io;
use std::io::Eprint;
use std::test::Fail;
use std::time::{Clock, Duration, Instant};

// A clock at so many milliseconds, and how many lines were written.
#[derive(Drop)]
struct Desk {
    now: Cell<u64>,
    lines: Cell<usize>,
}

impl Clock for Desk {
    fn monotonic(&self) -> io::Result<Duration> {
        Ok(Duration::from_millis(self.now.get()))
    }

    fn since_1970(&self) -> io::Result<Duration> {
        self.monotonic()
    }
}

impl Eprint for Desk {
    fn eprint<D: Display + Drop>(&self, _value: D) -> io::Result<()> {
        Ok(())
    }

    fn eprintln<D: Display + Drop>(&self, _value: D) -> io::Result<()> {
        self.lines.set(self.lines.get().saturating_add(1));
        Ok(())
    }
}

// How many lines are told of work that is done at these milliseconds.
fn lines_told(wanted: bool, times: &[u64]) -> usize {
    let desk = Desk {
        now: Cell::new(0),
        lines: Cell::new(0),
    };
    let mut teller = Teller::new(&desk, wanted, None, "lines");
    for time in times {
        desk.now.set(*time);
        teller.tell_next();
    }
    desk.lines.get()
}

#[test]
fn progress_as_text(rt: HostRuntime) -> Result<(), Fail> {
    for (done, all, noun, text) in [
        (120, Some(1000), "edits", "120 of 1000 edits"),
        (0, Some(0), "edits", "0 of 0 edits"),
        (5000, None, "lines", "5000 lines"),
    ] {
        let progress = Progress { done, all, noun };
        let told = format!(in rt.alloc(); "{progress}")?;
        assert_eq!(rt; told.as_str(), text);
    }
    Ok(())
}

#[test]
fn due_after_a_second(rt: HostRuntime) {
    for (passed, due) in [
        (Duration::ZERO, false),
        (Duration::from_millis(999), false),
        (Duration::from_millis(1000), true),
        (Duration::from_millis(2500), true),
    ] {
        assert_eq!(rt; is_due(passed), due);
    }
}

// The line that a teller of 1000 edits has at these milliseconds, 120 of them done and nothing told since 0.
fn line_at(wanted: bool, time: u64) -> Option<(usize, Option<usize>)> {
    let desk = Desk {
        now: Cell::new(0),
        lines: Cell::new(0),
    };
    let mut teller = Teller::new(&desk, wanted, Some(1000), "edits");
    teller.tell(120);
    desk.now.set(time);
    let line = teller.line_at(Instant::now(&desk).ok()?)?;
    Some((line.done, line.all))
}

#[test]
fn line_after_a_second(rt: HostRuntime) {
    assert_eq!(rt; line_at(true, 999), None);
    assert_eq!(rt; line_at(true, 1000), Some((120, Some(1000))));
    assert_eq!(rt; line_at(false, 1000), None);
}

#[test]
fn told_once_a_second(rt: HostRuntime) {
    let times = [1, 999, 1000, 1001, 1999, 2000, 5500, 5501, 6499, 6500];
    assert_eq!(rt; lines_told(true, &times), 4);
    assert_eq!(rt; lines_told(false, &times), 0);
    assert_eq!(rt; lines_told(true, &[]), 0);
}
