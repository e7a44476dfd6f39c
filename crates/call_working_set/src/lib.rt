//! The working set of a call: what the call read, each row once, and the edits that it makes.
//!
//! A [`CallState`] has what was read of a desk, and the edits so far. A [`WorkingSet`] is a desk with its call state,
//! and answers for the world with the edits made. A step of a call is generic in what a working set does ([`Draft`]),
//! decides by a [`UnitState`], and puts what it changes.
#![tactic(auto)]

mod by_name;
pub mod call_state;
pub mod draft;
pub mod instances;
mod reading;
pub mod unit_state;
pub mod working_set;

pub use by_name::{place_before, put_all};
pub use call_state::CallState;
pub use draft::Draft;
pub use instances::Instances;
pub use unit_state::UnitState;
pub use working_set::WorkingSet;
