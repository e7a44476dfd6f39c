//! Instants of ISO 8601, and their moments.
#![tactic(auto)]

mod instant;

pub use instant::{moment_in, moment_of};
