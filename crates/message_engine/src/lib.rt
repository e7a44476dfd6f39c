//! What each message does to any store.
//!
//! A first-heard call, an import that is not kept, and a tick are one step of the job machine each. The changes of the
//! step are committed with what is kept of the message. The latest four calls of each host and all imports are kept; a
//! repeat of one gets the same answer. A good answer or a refusal comes from a store that is open; one that a fault has
//! shut is unavailable. A stop at any moment leaves the store as it was, or with that one message served.
#![tactic(auto)]

mod bodies;
mod calls;
mod commits;
mod copies;
mod imports;
mod list_store;
mod ticks;

pub use calls::call;
pub use imports::import;
pub use list_store::ListStore;
pub use ticks::tick;
