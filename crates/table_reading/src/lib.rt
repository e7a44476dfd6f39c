//! Reads the sound world that stored tables hold, and tests everything that it must be.
#![tactic(auto)]

mod counts;
mod due;
mod kept;
mod rows;
mod units;
mod world;

pub use counts::UnitCounts;
pub use due::lowered_to;
pub use rows::Reading;
pub use world::{InMemory, stored_world};
