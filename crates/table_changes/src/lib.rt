//! The rows that changes of a world write into the stored tables, found from what the changes touch. It knows no SQL.
#![tactic(auto)]

mod applications;
mod calls;
mod changes;
mod hosts;
mod imports;
mod instances;
mod marks;
mod tallies;
mod touched;
mod units;

pub use changes::rows_of_changes;
