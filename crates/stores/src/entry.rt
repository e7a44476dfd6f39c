//! What is kept of a message, in addition to its changes.

use crate::batch::KeptBatch;
use crate::kind::Kind;
use reply_register::Kept;
use texts::Text;

/// What is kept of a message, in addition to its changes.
#[derive(Drop)]
pub enum Entry {
    /// A call of the host of this number, with its reply.
    Kept(u32, Kept),
    /// An import of this kind, with the name of its batch.
    Batch(Kind, Text, KeptBatch),
    Nothing,
}
