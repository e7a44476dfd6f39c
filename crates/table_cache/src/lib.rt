//! A cache of rows and look-ups of stored tables. It follows each row that is put, so what it has stays right.
#![tactic(auto)]

mod cache;
mod credits;
mod following;
mod holding;
mod keys;
mod last_number;
mod rows_read;
mod sent;
mod skips;
mod versions;
mod weights;

pub use cache::{Cache, UnitRead};
