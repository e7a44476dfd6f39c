//! What the operator chose.

use texts::{Same, Text};

/// What the operator chose when the project's tables were created. It never changes.
#[derive(Clone, Drop)]
pub struct Settings {
    /// The most jobs that a host may get on one day, if it does well: 1 to 1,000,000.
    pub daily_result_quota: u32,
    /// The most hosts: 1 to 100,000.
    pub max_hosts: u32,
    /// The most jobs that a host may have in progress: 1 to 1,000.
    pub max_wus_in_progress: u32,
    /// The most new jobs of one reply: 1 to 100.
    pub max_wus_to_send: u32,
    /// The operator's secret word, of at least 8 bytes.
    pub operator_key: Text,
    /// Seconds that a client must wait before its next call: up to 2,592,000.
    pub request_delay: u32,
    /// Whether jobs that a client lost are sent to it again.
    pub resend_lost_results: bool,
}

impl Same for Settings {
    ghost use Rattle.std.proofs.Common.{rules};

    ghost exact = { λ settings copy is_copy. Prim.search rules };
}
