//! What a store is: a desk that also keeps calls with their replies and imports with their answers. It makes the
//! changes of a message and keeps the message in one commit.
//!
//! The message engine serves messages over any store. The stored tables are one store. Neither knows the other. What a
//! store holds is one record, in `specs/Held.antt`. What each call that may commit owes for any answer is another, in
//! `specs/Acting.antt`.
#![tactic(auto)]

mod batch;
mod entry;
mod kind;
mod store;

pub use batch::KeptBatch;
pub use entry::Entry;
pub use kind::Kind;
pub use store::{Store, confirmed};
