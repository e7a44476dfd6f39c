//! Reading one message.

ghost use Rattle.std.specs.Prelude.{◌≡◌, ◌<◌, ◌⊎◌, IfOk, OnErr};
ghost use Rattle.http_serving.specs.Missing.{Misses};
ghost use Rattle.http_serving.specs.Reading.{HeardSays, TurnSays};
ghost use Rattle.http_serving.specs.Streams.{StepsInTurn};

use crate::fault::IoFault;
use crate::handler::Handler;
use crate::streams::{Source, StreamFault};
use std::alloc::{AllocError, Global};

/// The most bytes of one read.
const CHUNK: usize = 4_096;

/// The most turns in which one message is read. Each is one read, even if it is interrupted.
const MOST_TURNS: u32 = 2_000_000;

/// What was read.
#[derive(Drop)]
pub(crate) enum Heard {
    Message(Vec<u8>),
    /// There was no room for all of it.
    NoRoom,
}

/// The result of one turn.
#[derive(Clone, Copy)]
pub(crate) enum Turn {
    /// So many more bytes; none if the read was interrupted.
    Gave(usize),
    End,
    /// There was no room for what it gave.
    NoRoom,
    Failed,
}

/// Reads until the handler wants no more, or there are no more bytes. The handler is asked again once as many bytes
/// have come as it said.
pub(crate) fn read_message<H: Handler, R: Source>(
    alloc: Global,
    service: &H,
    reader: &mut R,
) -> Result<Heard, IoFault>
    ensures ok { IfOk result (HeardSays (H.settled service.now) (H.wanting service.now) (R.left reader.old) (R.left reader.new)) }
    ensures fault { OnErr result (result ≡ Err IoFault.Read) }
    ensures cause { OnErr result (R.has_failed reader.new ⊎ StepsInTurn R.steps 2_000_000 reader.old reader.new) }
{
    let mut bytes = Vec::new(alloc);
    let mut missing = service.missing(&bytes);
    for _ in 0..MOST_TURNS {
        if missing == 0 {
            return Ok(Heard::Message(bytes));
        }
        match read_turn(reader, &mut bytes) {
            Turn::Gave(count) => {
                missing = still_missing(service, &bytes, missing.saturating_sub(count));
            }
            Turn::End => return Ok(Heard::Message(bytes)),
            Turn::NoRoom => return Ok(Heard::NoRoom),
            Turn::Failed => return Err(IoFault::Read),
        }
    }
    Err(IoFault::Read)
}

/// How many bytes are missing, if a number of missing bytes is known. The handler is asked only if none is known to be.
fn still_missing<H: Handler>(service: &H, bytes: &[u8], known: usize) -> usize
    requires { Misses (H.wanting service.now) bytes.now known }
    ensures known { 0 < known → result ≡ known }
    ensures none { result ≡ 0 → H.settled service.now bytes.now }
    ensures some { Misses (H.wanting service.now) bytes.now result }
{
    if known == 0 {
        service.missing(bytes)
    } else {
        known
    }
}

/// Makes one read, and adds its bytes after the others.
fn read_turn<R: Source>(reader: &mut R, bytes: &mut Vec<u8>) -> Turn
    ensures says { TurnSays (R.has_failed reader.new) (R.left reader.old) (R.left reader.new) bytes.old.items bytes.new.items result }
    ensures step { R.steps reader.old reader.new }
{
    let mut chunk = [0; CHUNK];
    match reader.read_some(&mut chunk) {
        Ok(0) => Turn::End,
        Ok(count) => match bytes.extend_from_slice(&chunk[..count]) {
            Ok(()) => Turn::Gave(count),
            Err(AllocError) => Turn::NoRoom,
        },
        Err(StreamFault::Interrupted) => Turn::Gave(0),
        Err(StreamFault::Failed) => Turn::Failed,
    }
}
