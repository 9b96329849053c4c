// Telling how far long work is.
ghost use Rattle.std.specs.Prelude.{◌≡◌, ◌+◌, ◌-◌, ◌^◌, false, min, None, IfSome, is_some};
ghost use Rattle.std.specs.Option.{option_map};
ghost use Rattle.std.specs.Time.{instant_nanos};
ghost use Rattle.progress.specs.Progress.{line_due};

use crate::line::{Progress, is_due};
use std::io::Eprint;
use std::time::{Clock, Instant};

// Tells on standard error how far work is, if that is wanted, at most once a second. Where the clock cannot be read or the line cannot be written,
// nothing is told, and the work goes on.
#[derive(Drop)]
pub struct Teller<'a, R> {
    rt: &'a R,
    all: Option<usize>,
    noun: &'static str,
    done: usize,
    // when it was told last, or begun; none where nothing is told
    told: Option<Instant>,
}

impl<'a, R: Clock + Eprint> Teller<'a, R> {
    // Begins to tell, if that is wanted, of so many, or of nobody knows how many, of what the noun says.
    pub fn new(rt: &'a R, wanted: bool, all: Option<usize>, noun: &'static str) -> Teller<'a, R>
        ensures nothing_done { result.done ≡ 0 }
        ensures work { (result.all ≡ all) × (result.noun ≡ noun.entry) }
        ensures unwanted { wanted ≡ false → result.told ≡ None }
    {
        let told = if wanted { Instant::now(rt).ok() } else { None };
        Teller {
            rt,
            all,
            noun,
            done: 0,
            told,
        }
    }

    // What is to be told at a moment, if anything is: how far the work is, once a second has passed since it was told last.
    pub fn line_at(&self, now: Instant) -> Option<Progress>
        ensures due { is_some result ≡ line_due (option_map instant_nanos self.now.told) (instant_nanos now) }
        ensures line { IfSome result (λ line. (line.done ≡ self.now.done) × ((line.all ≡ self.now.all) × (line.noun ≡ self.now.noun))) }
    {
        let told = self.told?;
        if !is_due(now.duration_since(told)) {
            return None;
        }
        Some(Progress {
            done: self.done,
            all: self.all,
            noun: self.noun,
        })
    }

    // So many are done: tells what is to be told now. The clock is not read where nothing is told.
    pub fn tell(&mut self, done: usize)
        ensures counts { self.new.done ≡ done }
        ensures same_work { (self.new.all ≡ self.old.all) × (self.new.noun ≡ self.old.noun) }
        ensures unwanted { self.old.told ≡ None → self.new.told ≡ None }
    {
        self.done = done;
        if self.told.is_none() {
            return;
        }
        let Ok(now) = Instant::now(self.rt) else {
            return;
        };
        if let Some(line) = self.line_at(now) {
            self.told = Some(now);
            let _ = self.rt.eprintln(line);
        }
    }

    // One more is done.
    pub fn tell_next(&mut self)
        ensures counts { self.new.done ≡ min (self.old.done + 1) (2 ^ 64 - 1) }
        ensures same_work { (self.new.all ≡ self.old.all) × (self.new.noun ≡ self.old.noun) }
        ensures unwanted { self.old.told ≡ None → self.new.told ≡ None }
    {
        self.tell(self.done.saturating_add(1));
    }
}
