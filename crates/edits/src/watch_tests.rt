// Edits of a small job, and who is told of them.
use crate::job::{edit_job, edit_job_watched};
use crate::script::Edit;
use crate::watch::Watch;
use std::test::Fail;

// The job of five vertices and two levels.
const FIVE: [u8; 56] = [
    2, 0, 0, 0, 1, 0, 1, 1, 20, 0, 0, 0, 2, 0, 0, 0, 0, 0, 2, 0, 1, 0, 4, 0, 0, 0, 6, 0, 3, 0, 8,
    0, 0, 0, 16, 0, 0, 0, 3, 0, 1, 0, 0, 0, 1, 0, 0, 0, 3, 0, 0, 0, 1, 0, 0, 0,
];

// The number that was told last, and whether each was one more than the one before.
#[derive(Clone, Copy)]
struct Counter {
    last: usize,
    in_order: bool,
}

impl Watch for Counter {
    fn done(&mut self, edits: usize) {
        self.in_order = self.in_order && edits == self.last.saturating_add(1);
        self.last = edits;
    }
}

#[test]
fn each_edit_is_told(rt: HostRuntime) -> Result<(), Fail> {
    let edits = [Edit::Pin(2), Edit::Draw, Edit::Pin(2), Edit::Draw];
    let mut counter = Counter {
        last: 0,
        in_order: true,
    };
    let watched = edit_job_watched(rt.alloc(), &FIVE, &edits, &mut counter)?;
    assert_eq!(rt; counter.last, 4);
    assert!(rt; counter.in_order);
    assert_eq!(rt; watched.answers.len(), 4);
    assert!(rt; !watched.all_accepted());
    let unwatched = edit_job(rt.alloc(), &FIVE, &edits)?;
    assert_eq!(rt; unwatched.answers.len(), 4);
    Ok(())
}

#[test]
fn refused_jobs_tell_nothing(rt: HostRuntime) {
    let mut counter = Counter {
        last: 0,
        in_order: true,
    };
    let watched = edit_job_watched(rt.alloc(), &FIVE[..55], &[Edit::Draw], &mut counter);
    assert!(rt; watched.is_err());
    assert_eq!(rt; counter.last, 0);
}
