//! The key of a call.

use texts::{Same, Text};

/// Who calls: a host of an account. Keys are ordered by the account, then by the host.
#[derive(Clone, PartialEq, Eq, PartialOrd, Ord, Debug, Drop)]
pub struct Key {
    /// The account's secret word.
    pub authenticator: Text,
    /// The host's own name for itself.
    pub host_cpid: Text,
}

impl Same for Key {
    ghost exact = { λ key copy is_copy i. record { authenticator = is_copy.0 i; host_cpid = is_copy.1 i } };
}
