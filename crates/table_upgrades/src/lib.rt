//! Makes tables of an earlier schema into those of the newest one. It knows no world.
#![tactic(auto)]

pub mod fills;
pub mod steps;

pub use steps::upgrade;
