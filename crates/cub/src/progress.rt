// How far a run is, told at a terminal.

use audit_verdict::Progress;
use std::rt::Clock;
use std::time::Instant;

// Runs are told of from this second on.
const PATIENCE: u64 = 1;

/// Tells on one line of standard error how far a run is, from its first second on, where standard error is a terminal. The line is
/// cleared when the run is over. Where it can't be written, or the clock can't be read, nothing is told.
#[derive(Clone, Copy)]
pub struct HostProgress<R> {
    rt: R,
    is_terminal: bool,
    // when the run began, where it is told of
    begun: Option<Instant>,
    budget: u64,
    is_shown: bool,
}

impl<R> HostProgress<R> {
    pub fn new(rt: R, is_terminal: bool) -> Self {
        HostProgress {
            rt,
            is_terminal,
            begun: None,
            budget: 0,
            is_shown: false,
        }
    }
}

impl<R: Clock> HostProgress<R> {
    // Whether the run has gone on for so long that it is told of.
    fn is_long(&self) -> bool {
        match self.begun {
            Some(begun) => begun
                .elapsed(&self.rt)
                .is_ok_and(|time| time.as_secs() >= PATIENCE),
            None => false,
        }
    }
}

impl<R: Clock + Eprint> Progress for HostProgress<R> {
    fn begin(&mut self, budget: u64) {
        self.budget = budget;
        self.is_shown = false;
        self.begun = if self.is_terminal {
            Instant::now(&self.rt).ok()
        } else {
            None
        };
    }

    fn picked(&mut self, picks: u64) {
        if self.is_long() {
            self.is_shown = true;
            let _ = eprint!(self.rt; "\r{picks} of {} steps", self.budget);
        }
    }

    fn end(&mut self) {
        if self.is_shown {
            let _ = eprint!(self.rt; "\r{:30}\r", "");
        }
    }
}
