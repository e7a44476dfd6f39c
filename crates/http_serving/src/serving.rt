//! Serving one message.

ghost use Rattle.std.specs.Prelude.{◌≡◌, ◌⊎◌, ℕ, List, IsErrOf, OnOk, OnErr};
ghost use Rattle.std.specs.Io.KnownBytes.{Appends};
ghost use Rattle.http_serving.specs.Serving.{Comes, IsAnswered};
ghost use Rattle.http_serving.specs.Streams.{StepsInTurn, IsWritten};

use crate::fault::IoFault;
use crate::handler::Handler;
use crate::reading::{Heard, read_message};
use crate::streams::{Sink, Source};
use crate::writing::write_answer;
use http_responses::Answer;
use std::alloc::Global;

/// Reads one message as far as `service` wants, hands it over, and writes the answer.
///
/// If there is no room for the message, nothing is handled, and the answer says so. At [`IoFault::Read`] nothing is
/// handled and nothing written: a read failed, or 2,000,000 reads were made, interrupted ones included. At
/// [`IoFault::Write`] a write failed, was interrupted, or took nothing: what was handled stays, and a front of the
/// answer was written.
pub fn serve_one<H: Handler, R: Source, W: Sink>(
    alloc: Global,
    service: &mut H,
    now: u64,
    reader: &mut R,
    writer: &mut W,
) -> Result<(), IoFault>
    ensures ok { OnOk result ((bytes : List ℕ) × (answer : List ℕ)
        × Comes (H.wanting service.old) (R.left reader.old) (R.left reader.new) bytes
        × IsAnswered H.settled H.handles (R.left reader.new) service.old now bytes answer service.new
        × Appends (W.held writer.old) (W.held writer.new) answer) }
    ensures read_fault { IsErrOf result IoFault.Read
        → (service.new ≡ service.old) × (writer.new ≡ writer.old)
        × (R.has_failed reader.new ⊎ StepsInTurn R.steps 2_000_000 reader.old reader.new) }
    ensures write_fault { IsErrOf result IoFault.Write
        → W.has_failed writer.new × ((bytes : List ℕ) × (answer : List ℕ)
        × Comes (H.wanting service.old) (R.left reader.old) (R.left reader.new) bytes
        × IsAnswered H.settled H.handles (R.left reader.new) service.old now bytes answer service.new
        × IsWritten (W.held writer.old) (W.held writer.new) answer) }
{
    match read_message(alloc, &*service, reader) {
        Ok(Heard::Message(bytes)) => answer_one(alloc, service, now, &bytes, writer),
        Ok(Heard::NoRoom) => write_answer(&Answer::Unavailable, writer),
        Err(fault) => Err(fault),
    }
}

/// Hands one message over, and writes its answer.
fn answer_one<H: Handler, W: Sink>(
    alloc: Global,
    service: &mut H,
    now: u64,
    bytes: &[u8],
    writer: &mut W,
) -> Result<(), IoFault>
    ensures ok { OnOk result ((answer : List ℕ) × H.handles service.old now bytes.now answer service.new
        × Appends (W.held writer.old) (W.held writer.new) answer) }
    ensures fault { OnErr result (result ≡ Err IoFault.Write) }
    ensures failed { OnErr result (W.has_failed writer.new) }
    ensures went_out { OnErr result ((answer : List ℕ) × H.handles service.old now bytes.now answer service.new
        × IsWritten (W.held writer.old) (W.held writer.new) answer) }
{
    let answer = service.handle(alloc, now, bytes);
    write_answer(&answer, writer)
}
