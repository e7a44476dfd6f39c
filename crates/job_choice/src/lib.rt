//! Which jobs a host is given.
//!
//! [`choose`] asks a desk for what matters to the choice. It is then offered the candidates in their order, and takes
//! each that the host may have, until the host has enough or a limit is reached. It asks which version the host runs of
//! an application only when a candidate needs it. It asks whether the user had a workunit only if the host runs its
//! application. The choice is the one grant that the definitions allow: a maximal list of jobs, by place.
#![tactic(auto)]

pub mod choice;
mod choosing;
pub mod fitting;
pub mod granted;
pub mod laws;
mod past;
mod seeking;

pub use choice::{choose, version_for};
pub use fitting::{estimate, fits, seconds_at};
pub use granted::{Grant, Granted};
