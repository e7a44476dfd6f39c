//! The calls of the job machine and its answers. The machine itself is in another crate, which depends on this one. Its
//! words are defined here, so the definitions of one step can use them.

use crate::rows::Rows;
use rpc_records::{Reply, Request};

/// Who calls: the account's place, and the host's number if the host is already known.
#[derive(Clone, Copy, Debug, PartialEq, Eq)]
pub struct Caller {
    pub account: u32,
    pub host: Option<u32>,
}

/// What the machine hears.
#[derive(Drop)]
pub enum Call {
    /// A scheduler call of a host.
    Rpc(Caller, Request),
    /// New rows.
    Import(Rows),
    /// Time passes.
    Tick,
}

/// What the machine answers.
#[derive(Drop)]
pub enum Answered {
    Rpc(Reply),
    /// How many rows were added.
    Imported(u32),
    /// How many instances lapsed.
    Lapsed(u32),
}
