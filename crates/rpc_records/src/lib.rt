//! The records of a scheduler call, and their texts: a request and what it means, the reply, and the refusals.
//!
//! A request comes as JSON: [`decode_request`] returns what it means, or its refusal. [`request_text`] is its canonical
//! text: two calls are equal exactly if their canonical texts are. [`reply_text`] and [`fault_text`] write replies and
//! refusals.
#![tactic(auto)]

mod answers;
mod canonical;
mod decode;
pub mod fault;
pub mod laws;
mod members;
pub mod reply;
pub mod request;
mod text_kind;
mod to_json;
mod values;

pub use answers::{fault_text, reply_text, unavailable_text};
pub use canonical::request_text;
pub use decode::{decode_request, json_value};
pub use fault::{Fault, Member};
pub use reply::{EndWord, Job, Reply};
pub use request::{HostInfo, MOST_NUMBER, Report, Request};
