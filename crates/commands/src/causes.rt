//! Why answers were unavailable, as lines on standard error.

use sched_book::Cause;
use std::time::{Duration, Instant};

/// The least time between two lines, in seconds.
const LEAST_SECONDS: u64 = 1;

/// Prints a line for an unavailable answer, but at most one a second. A line counts the answers that were left out since
/// the line before.
#[derive(Drop)]
pub(crate) struct Causes {
    /// When the last line was printed.
    last: Option<Instant>,
    left_out: u64,
}

impl Causes {
    pub(crate) fn new() -> Causes {
        Causes {
            last: None,
            left_out: 0,
        }
    }

    /// Prints why an answer was unavailable. If no line can be printed, serving continues.
    pub(crate) fn print(&mut self, rt: &HostRuntime, cause: Cause) {
        let Ok(now) = Instant::now(rt) else {
            return;
        };
        if self.is_too_soon(now) {
            self.left_out = self.left_out.saturating_add(1);
            return;
        }
        let _printed = match self.left_out {
            0 => eprintln!(rt; "bsched: unavailable: {cause}"),
            left_out => eprintln!(rt;
                "bsched: unavailable: {cause} (and {left_out} more since the last such line)"
            ),
        };
        self.last = Some(now);
        self.left_out = 0;
    }

    fn is_too_soon(&self, now: Instant) -> bool {
        match self.last {
            Some(last) => now.duration_since(last) < Duration::from_secs(LEAST_SECONDS),
            None => false,
        }
    }
}
