//! The answer to a message, before it is written as a response.

use rpc_records::Fault;
use texts::Text;

/// The answer to a message, before it is written as a response.
#[derive(Drop)]
pub enum AnswerContent {
    /// A good answer with this body: a reply, or what an import or a tick did.
    Good(Text),
    /// A text about what is stored.
    Statement(Text),
    /// A refusal.
    Refusal(Fault),
}
