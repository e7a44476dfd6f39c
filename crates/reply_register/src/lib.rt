//! The kept calls, which are the latest four of each host, and what a call is compared with them.
#![tactic(auto)]

pub mod keeping;
pub mod kept;
pub mod key;
pub mod laws;
pub mod register;

pub use keeping::{MOST_KEPT, copy_kept};
pub use kept::{Heard, Kept, classify};
pub use key::Key;
pub use register::Register;
