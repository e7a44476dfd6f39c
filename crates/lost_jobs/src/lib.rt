//! The jobs that a client lost, and the names that it should no longer work on.
#![tactic(auto)]

mod aborted;
mod changes;
mod fates;
pub mod laws;
mod missing;
mod outer_calls;

pub use aborted::aborts_on;
pub use changes::put_fates;
pub use fates::{Fate, fates_on, version_on};
pub use missing::lost_on;
pub use outer_calls::{aborts, lost, resend_or_drop};
