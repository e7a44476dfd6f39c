//! What reports and lapses lead to: which are recorded, what workunits then need, and the quotas of hosts.
//!
//! A host reports the results of its jobs. If enough outputs agree, the workunit is done. A workunit that is still open
//! gets the instances that it lacks. BOINC's clients report in scheduler requests; what is counted, and how a host's
//! daily quota moves, is this profile's. Everything is counted from scratch by [`sched_book::count`]. The steps of a
//! call ([`record_on`], [`lapse_on`], [`settle_on`]) put their changes in its working set. A function that has only a
//! desk reads it, and returns the edits.
#![tactic(auto)]

mod growth;
mod host_quotas;
mod late;
mod outer_calls;
mod quota;
mod reports;
mod scores;
mod settlement;
mod settling;

pub use late::lapse_on;
pub use outer_calls::{Settled, Taken, Verdicts, agree, lapse, settle, settle_all, take_reports};
pub use quota::next_quota;
pub use reports::record_on;
pub use scores::Score;
pub use settlement::canonical;
pub use settling::{lapse_places, settle_on, settle_read};
