//! A message as it came.

use sched_book::Moment;
use texts::Listed;

/// The bytes of a message, and the moment at which they came.
#[derive(Drop)]
pub struct Arrival {
    pub now: Moment,
    pub bytes: Listed<u8>,
}
