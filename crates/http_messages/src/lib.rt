//! What the bytes of a request mean.
//!
//! [`hear`] takes the bytes that a peer has sent so far. It returns the message that they are, and how many more are
//! needed at least before no further bytes can change that. `specs/` says what bytes mean, check by check in their
//! order; [`laws`] are the theorems.
#![tactic(auto)]

mod bodies;
mod deciding;
mod fields;
mod heads;
mod hearing;
pub mod laws;
pub mod message;
mod numbers;
pub mod route_kind;
mod routes;

pub use hearing::hear;
pub use message::{Message, MessageSoFar};
pub use route_kind::RouteKind;
pub use routes::new_router;
