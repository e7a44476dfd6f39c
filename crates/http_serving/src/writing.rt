//! Writing one answer.

ghost use Rattle.std.specs.Prelude.{◌≡◌, ◌++◌, OnOk, OnErr, IfSome};
ghost use Rattle.std.specs.Io.KnownBytes.{Appends};
ghost use Rattle.http_responses.specs.Answers.{answer_bytes};
ghost use Rattle.http_serving.specs.Streams.{IsWritten};

use crate::fault::IoFault;
use crate::streams::{Sink, StreamFault};
use arrayvec::ArrayVec;
use http_responses::Answer;

/// The most bytes of a head and its body that are written at once.
const MOST_AT_ONCE: usize = 4_096;

/// Writes the answer's response. If they are short, its head and its body are one write.
#[tactic(auto, using(crate::proofs::Writings::answer_steps))]
pub(crate) fn write_answer<W: Sink>(answer: &Answer, writer: &mut W) -> Result<(), IoFault>
    ensures ok { OnOk result (Appends (W.held writer.old) (W.held writer.new) (answer_bytes answer.now)) }
    ensures fault { OnErr result (result ≡ Err IoFault.Write) }
    ensures failed { OnErr result (W.has_failed writer.new) }
    ensures went_out { OnErr result (IsWritten (W.held writer.old) (W.held writer.new) (answer_bytes answer.now)) }
{
    let head = answer.head();
    let head = head.as_str().as_bytes();
    let body = answer.body().as_bytes();
    match together(head, body) {
        Some(bytes) => write_whole(writer, bytes.as_slice()),
        None => write_in_turn(head, body, writer),
    }
}

/// A head and then its body, if they are short. It needs no memory.
fn together(head: &[u8], body: &[u8]) -> Option<ArrayVec<u8, MOST_AT_ONCE>>
    ensures { IfSome result (λ bytes. bytes.items ≡ head.now ++ body.now) }
{
    let mut bytes = ArrayVec::new();
    bytes.try_extend_from_slice(head).ok()?;
    bytes.try_extend_from_slice(body).ok()?;
    Some(bytes)
}

/// Writes a head, then its body.
fn write_in_turn<W: Sink>(head: &[u8], body: &[u8], writer: &mut W) -> Result<(), IoFault>
    ensures ok { OnOk result (Appends (W.held writer.old) (W.held writer.new) (head.now ++ body.now)) }
    ensures fault { OnErr result (result ≡ Err IoFault.Write) }
    ensures failed { OnErr result (W.has_failed writer.new) }
    ensures went_out { OnErr result (IsWritten (W.held writer.old) (W.held writer.new) (head.now ++ body.now)) }
{
    write_whole(writer, head)?;
    write_whole(writer, body)
}

fn write_whole<W: Sink>(writer: &mut W, bytes: &[u8]) -> Result<(), IoFault>
    ensures ok { OnOk result (Appends (W.held writer.old) (W.held writer.new) bytes.now) }
    ensures fault { OnErr result (result ≡ Err IoFault.Write) }
    ensures failed { OnErr result (W.has_failed writer.new) }
    ensures went_out { OnErr result (IsWritten (W.held writer.old) (W.held writer.new) bytes.now) }
{
    let mut written = 0;
    while written < bytes.len() {
        match writer.write_some(&bytes[written..]) {
            Ok(0) => return Err(IoFault::Write),
            Ok(count) => written += count,
            Err(StreamFault::Interrupted | StreamFault::Failed) => return Err(IoFault::Write),
        }
    }
    Ok(())
}
