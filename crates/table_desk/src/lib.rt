//! The look-ups of a desk, answered by statements over the stored tables.
//!
//! Each look-up of a desk is a function over a connection. Applications seldom change, so the caller keeps them and passes
//! them in. What waits is kept as a window of places, which follows each instance that is written.
#![tactic(auto)]

mod accounts;
mod apps;
mod columns;
mod hosts;
mod lengths;
mod offers;
mod places;
mod skip;
mod sorted;
mod users;
mod window;
mod workunits;

pub use accounts::{account_by_key, host_by_key};
pub use apps::{app_by_name, version_by_key, version_for};
pub use columns::{credit_of_none_given, credit_of_user, held_of_none_given, status_of};
pub use hosts::{CountedHost, counted_host};
pub use lengths::counts;
pub use offers::{KnownUnits, Offering};
pub use places::{due_before, held_by, owned_by, sent_on_day};
pub use skip::Skip;
pub use sorted::{insert_place, remove_place};
pub use users::units_of_user;
pub use window::QueueWindow;
pub use workunits::{instance_at, instances_at, unit_at, unit_by_name};
