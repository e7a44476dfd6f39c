//! What a line of a host's statement says.

use texts::Text;

/// What a statement says of an instance that a host was given.
#[derive(Drop)]
pub struct StatementLine {
    /// The instance's name.
    pub result: Text,
    /// The name of its workunit's application.
    pub app: Text,
    /// When it was sent, in seconds since 1970-01-01T00:00:00Z.
    pub sent: u64,
    /// The last second at which its report is in time, since 1970-01-01T00:00:00Z.
    pub deadline: u64,
    /// 5 if it is over, by a report or a lapse, and else 4.
    pub server_state: u32,
    /// 1 for a success, 3 for a client error, 4 for a lapse with no report, and else 0.
    pub outcome: u32,
    /// 1 for a valid result, 2 for an invalid one, 3 for a report that was not judged, and else 0.
    pub validate_state: u32,
    /// Millicredits: the workunit's for a valid result, and else 0.
    pub credit: u32,
}
