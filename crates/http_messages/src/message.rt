//! What a request asks for, and what bytes mean.

use http_responses::Method;
use rpc_records::Fault;
use stores::Kind;

/// What a message asks for.
#[derive(Clone, Copy)]
pub enum Message<'b> {
    /// A call of a host, with its body.
    Call(&'b [u8]),
    /// An import of rows of a kind, with their bytes, under the name of a batch.
    Import {
        kind: Kind,
        batch: &'b str,
        text: &'b [u8],
    },
    /// A tick, at which late jobs lapse.
    Tick,
    /// The statement of the host of this number.
    Statement(u32),
    /// The route takes another method, this one.
    WrongMethod(Method),
    /// A refusal for any other fault of the bytes.
    Refused(Fault),
}

/// What bytes mean.
#[derive(Clone, Copy)]
pub struct MessageSoFar<'b> {
    pub message: Message<'b>,
    /// How many more bytes are needed at least before no further bytes can change the message; 0 if none can.
    pub missing: usize,
}
