//! The scheduler as an HTTP server: what the bytes of a message do, and the bytes that answer them.
//!
//! A [`Service`] hears a message, does what it means to any store, and answers it. It owns all bytes of its answer
//! before the store commits. [`Service::serve`] serves one message over a reader and a writer.
#![tactic(auto)]

mod answers;
mod arrival;
mod handling;
pub mod laws;
mod running;
mod service;
mod serving;
mod statements;

pub use arrival::Arrival;
pub use http_responses::Answer;
pub use http_serving::{FromRead, FromWrite, IoFault, Sink, Source, serve_one};
pub use service::Service;
