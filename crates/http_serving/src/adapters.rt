//! Sources and sinks of std's readers and writers: each call is one call of theirs.
//!
//! std's contracts say what a call of `read` does to known bytes, and no more: neither when it fails nor that it was
//! made. So these promise the same, and nothing about failing.

ghost use Rattle.std.specs.Prelude.{◌≡◌, ⊤};
ghost use Rattle.std.specs.IoError.{error_kind};
ghost use Rattle.http_serving.specs.Adapters.{MayRead, fault_of};

use crate::streams::{Sink, Source, StreamFault};
use std::io;
use std::io::{ErrorKind, Read, Write};

impl From<io::Error> for StreamFault {
    ghost from_gives = { λ error fault. fault ≡ fault_of (error_kind error) };

    fn from(error: io::Error) -> StreamFault {
        match error.kind() {
            ErrorKind::Interrupted => StreamFault::Interrupted,
            _ => StreamFault::Failed,
        }
    }
}

/// A reader as a source.
#[derive(Drop)]
pub struct FromRead<'r, R>(pub &'r mut R);

impl<'r, R: Read> Source for FromRead<'r, R> {
    ghost left = { λ source. R.remaining source.0.now };

    ghost steps = { λ old new. MayRead (R.remaining old.0.now) (R.remaining new.0.now) };

    ghost has_failed = { λ _. ⊤ };

    fn read_some(&mut self, buf: &mut [u8]) -> Result<usize, StreamFault> {
        Ok(self.0.read(buf)?)
    }
}

/// A writer as a sink.
#[derive(Drop)]
pub struct FromWrite<'w, W>(pub &'w mut W);

impl<'w, W: Write> Sink for FromWrite<'w, W> {
    ghost held = { λ sink. W.contents sink.0.now };

    ghost has_failed = { λ _. ⊤ };

    fn write_some(&mut self, bytes: &[u8]) -> Result<usize, StreamFault> {
        Ok(self.0.write(bytes)?)
    }
}
