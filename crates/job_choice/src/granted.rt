//! The new jobs of a reply.

use rpc_records::EndWord;
use sched_book::{Place, Version};
use texts::Listed;

/// A job that a host is given.
#[derive(Drop)]
pub struct Granted {
    /// The place of the instance.
    pub place: Place,
    /// Seconds that the job takes on the host.
    pub estimate: u64,
    /// The version of its application that the host runs.
    pub version: Version,
}

/// The new jobs of a reply, and why there are no more.
#[derive(Drop)]
pub struct Grant {
    /// In the order of their places.
    pub jobs: Listed<Granted>,
    pub end_word: EndWord,
}
