//! The limits of a world's values, of settings, and of what a call or an import brings. `specs/Limits.antt` defines the
//! ranges of a world's values and of settings.

pub use rpc_records::MOST_NUMBER;

/// The most accounts of a project.
pub const MOST_ACCOUNTS: usize = 10_000;

/// The most applications.
pub const MOST_APPS: usize = 100;

/// The most versions of all applications together.
pub const MOST_VERSIONS: usize = 1_000;

/// The most workunits.
pub const MOST_WORKUNITS: usize = 200_000;

/// The most hosts that settings may allow.
pub const MOST_HOSTS: usize = 100_000;

/// The most instances of a workunit, and the most that any of its counts may ask for.
pub const MOST_INSTANCES: usize = 100;

/// 10^18: the most operations and the most bytes that a workunit may ask for.
pub const MOST_AMOUNT: u64 = 1_000_000_000_000_000_000;

/// The longest delay bound, in seconds.
pub const MOST_DELAY: u32 = 100_000_000;

/// The most millicredits for one result.
pub const MOST_CREDIT: u32 = 100_000_000;

/// The greatest number of a version.
pub const MOST_VERSION_NUM: u32 = 1_000_000;

/// The greatest distance of two outputs that agree.
pub const MOST_DISTANCE: u64 = 1_000_000_000;

/// The most jobs on one day that settings may allow a host.
pub const MOST_QUOTA: u32 = 1_000_000;

/// The most jobs in progress that settings may allow a host.
pub const MOST_IN_PROGRESS: u32 = 1_000;

/// The most new jobs of one reply that settings may allow.
pub const MOST_TO_SEND: u32 = 100;

/// The longest time, in seconds, that settings may have a client wait.
pub const MOST_REQUEST_DELAY: u32 = 2_592_000;

/// The fewest bytes of the operator's word.
pub const LEAST_KEY_BYTES: usize = 8;

/// The longest text of an import, in bytes.
pub const MOST_IMPORT_BYTES: usize = 1_048_576;
