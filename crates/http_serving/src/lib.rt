//! One message, from the bytes of a reader to the bytes of a writer.
//!
//! [`serve_one`] reads as far as its [`Handler`] wants, hands the message over, and writes the answer. A reader is a
//! [`Source`] and a writer is a [`Sink`]; [`FromRead`] and [`FromWrite`] make them from std's.
#![tactic(auto)]

pub mod adapters;
pub mod fault;
pub mod handler;
mod reading;
pub mod serving;
pub mod streams;
mod writing;

pub use adapters::{FromRead, FromWrite};
pub use fault::IoFault;
pub use handler::Handler;
pub use serving::serve_one;
pub use streams::{Sink, Source, StreamFault};
