//! A kept import.

use texts::{Listed, Text};

/// A kept import, which is kept for good.
#[derive(Drop)]
pub struct KeptBatch {
    /// The bytes of its text, as they came.
    pub text: Listed<u8>,
    /// The body of its answer.
    pub answer: Text,
}
