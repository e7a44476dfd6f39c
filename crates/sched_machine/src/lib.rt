//! The job machine: one step of it for each first-heard call, import and tick.
#![tactic(auto)]

mod admission;
mod caller;
mod imports;
mod jobs;
pub mod laws;
mod lost;
mod outer_calls;
mod owners;
mod preparing;
mod reply;
mod settlement;
mod step_error;
mod steps;
mod totals;

pub use admission::{AdmissionError, caller_of};
pub use outer_calls::{Refused, admit, step};
pub use sched_book::{Answered, Call, Caller};
pub use step_error::StepError;
pub use steps::{step_call, step_import, step_tick};
