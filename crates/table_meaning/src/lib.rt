//! What the stored tables mean: their schema, their rows, the meaning of each statement, and what they hold.
#![tactic(auto)]

pub mod codes;
pub mod rows;
pub mod tables;
