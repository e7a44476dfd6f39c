//! The world of the job machine, what is counted of it from scratch, and the desks that represent it.
//!
//! The rows are BOINC's: accounts, applications, their versions, workunits with their instances, and hosts.
//! `specs/` says what the machine does with them: counts of a workunit, the grant of jobs, reports, lost
//! jobs, settlement, imports, and one step of it. [`count`] is the plain slow program of the counts.
//! A [`Desk`] represents a [`World`] and answers what that world says.
#![tactic(auto)]

mod alike;
mod ballots;
pub mod by_name;
mod by_place;
pub mod cause;
mod changing;
pub mod count;
pub mod delta;
pub mod desk;
pub mod first_names;
pub mod instance;
mod keyed;
pub mod laws;
pub mod limits;
pub mod list_desk;
pub mod machine;
pub mod moment;
pub mod names;
mod near;
mod offers;
mod outputs;
pub mod rows;
mod selection;
pub mod settings;
mod versions;
mod whole_numbers;
pub mod world;

pub use by_name::{place_named, status_at};
pub use by_place::{app_index, copy_of, nth};
pub use cause::{Cause, Invariant, StorageFault};
pub use delta::{Delta, Edit, Edits, fresh_instances};
pub use desk::{Candidate, Counts, Desk, Flow, Placed, Taker, Unavailable, Units};
pub use first_names::{Named, first_of_each};
pub use instance::{Instance, Lapse, Outcome, Owner, Place, Status, UnitBook, Verdict};
pub use keyed::Keyed;
pub use list_desk::ListDesk;
pub use machine::{Answered, Call, Caller};
pub use moment::Moment;
pub use names::{instance_name, split_name};
pub use rows::{Account, Agreement, App, ClassRule, HostRow, Rows, Version, Workunit};
pub use settings::Settings;
pub use world::World;
