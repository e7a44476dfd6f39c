//! A scheduler_request, with what the host says of itself and what it reports.

use texts::{Listed, Text};

/// The greatest rpc_seqno and the greatest hostid. BOINC's numbers have 32 bits, and one is the sign.
pub const MOST_NUMBER: u32 = 2_147_483_647;

/// What a host says of itself: `host_info` of a scheduler_request.
#[derive(Debug, Drop)]
pub struct HostInfo {
    /// The host's own name for itself, a word that stays the same for its life.
    pub host_cpid: Text,
    /// Floating-point operations a second, 1 to 10^18.
    pub p_fpops: u64,
    /// Bytes of memory, up to 10^18.
    pub m_nbytes: u64,
    /// Bytes of free disk, up to 10^18.
    pub d_free: u64,
}

/// A result that the host has finished, a `result` of a scheduler_request.
#[derive(Debug, Drop)]
pub struct Report {
    /// The result's name, 1 to 254 bytes.
    pub name: Text,
    /// 0 for a success, any other for a client error.
    pub exit_status: i32,
    /// What the job wrote, at most 1,024 bytes.
    pub output: Text,
}

/// A scheduler_request: a host reports what it has finished and asks for work.
#[derive(Debug, Drop)]
pub struct Request {
    /// The account's secret word.
    pub authenticator: Text,
    /// The host's number, or 0 if it is not given.
    pub hostid: u32,
    /// The number of the call, which rises with each new call of a host.
    pub rpc_seqno: u32,
    pub host: HostInfo,
    /// The host's platforms, its own first, then the alternatives in their order: 1 to 8 words.
    pub platforms: Listed<Text>,
    /// Seconds of work that are asked for, up to 10^9.
    pub asked: u64,
    /// The names of the results that the host has, if it listed them.
    pub other_results: Option<Listed<Text>>,
    pub results: Listed<Report>,
}
