//! Why the step of an admitted call is refused.

ghost use Rattle.std.specs.Prelude.{◌≡◌};
ghost use Rattle.sched_machine.specs.declared.step_error.StepError.TheVariants as error;

use sched_book::{Cause, Unavailable};
use std::error::Error;
use std::fmt;

/// Why the step of an admitted call is refused.
#[derive(Clone, Copy, Debug, PartialEq, Eq)]
pub enum StepError {
    /// The host is new, and the project has as many hosts as its settings allow.
    HostsFull,
    /// The desk is unavailable, for this cause.
    Unavailable(Cause),
}

impl fmt::Display for StepError {
    fn fmt<W: fmt::Write>(&self, f: &mut fmt::Formatter<W>) -> fmt::Result {
        match self {
            StepError::HostsFull => write!(f, "no room for another host"),
            StepError::Unavailable(_) => write!(f, "unavailable"),
        }
    }
}

impl Error for StepError {}

impl From<Unavailable> for StepError {
    ghost from_gives = { λ unavailable why. why ≡ error.Unavailable unavailable.0 };

    fn from(unavailable: Unavailable) -> StepError {
        StepError::Unavailable(unavailable.0)
    }
}
