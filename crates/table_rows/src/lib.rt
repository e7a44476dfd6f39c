//! The stored tables as rows: tables are made, opened and read whole, and rows are put at their keys. It knows no
//! world.
#![tactic(auto)]

pub mod alike;
pub mod columns;
pub mod connection;
pub mod definitions;
pub mod fields;
pub mod keyed;
pub mod listing;
pub mod names;
pub mod opening;
pub mod places;
pub mod put;
pub mod read;
pub mod schemas;
pub mod statements;
pub mod values;
pub mod visiting;

pub use connection::test_open;
pub use definitions::create;
pub use keyed::{
    batch_of, class_of, host_of, instance_of, kept_calls, mark_of, status_of, unit_of,
};
pub use listing::{credits_of_user, hosts_of_user, version_numbers};
pub use names::{CountedTable, account_with, host_known, last_number, unit_named, version_known};
pub use opening::{OpenFault, OpenRefusal, cause_of, known};
pub use places::{instances_in, places_due, places_held, places_owned, queued_from, sent_between};
pub use put::put_rows;
pub use sched_book::{Cause, Invariant};
pub use visiting::{RowVisitor, visit_rows};
