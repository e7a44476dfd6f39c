//! Where messages come from, and where answers go.

ghost use Rattle.std.specs.Prelude.{◌≡◌, ◌<◌, ℕ, List, length, Option, IfOk, IsErrOf, OnErr};
ghost use Rattle.std.specs.Io.{ReadsAtMost, WritesAtMost};
ghost use Rattle.std.specs.Io.KnownBytes.{ReadConsumes, WriteAppends};

use std::error::Error;
use std::fmt;

/// Why one read gave nothing, or one write took nothing.
#[derive(Clone, Copy, Debug, PartialEq, Eq)]
pub enum StreamFault {
    /// A signal interrupted the call. Another call may succeed.
    Interrupted,
    /// The call failed.
    Failed,
}

impl fmt::Display for StreamFault {
    fn fmt<W: fmt::Write>(&self, f: &mut fmt::Formatter<W>) -> fmt::Result {
        match self {
            StreamFault::Interrupted => write!(f, "interrupted"),
            StreamFault::Failed => write!(f, "failed"),
        }
    }
}

impl Error for StreamFault {}

/// What bytes are read from.
pub trait Source {
    /// The bytes that are left, if they are known.
    ghost left: { Self → Option (List ℕ) };

    /// One call may lead from the first state to the second.
    ghost steps: { Self → Self → Type 0 };

    /// The last call failed.
    ghost has_failed: { Self → Type 0 };

    /// Puts bytes at the start of `buf`, and returns how many; none only at the end.
    fn read_some(&mut self, buf: &mut [u8]) -> Result<usize, StreamFault>
        ensures bound { ReadsAtMost result buf.new }
        ensures bytes { ReadConsumes (left self.old) (left self.new) result buf.new }
        ensures step { steps self.old self.new }
        ensures failed { IsErrOf result StreamFault.Failed → has_failed self.new };
}

/// What bytes are written to.
pub trait Sink {
    /// The bytes that it holds, if they are known.
    ghost held: { Self → Option (List ℕ) };

    /// The last call failed, was interrupted, or took none of some bytes.
    ghost has_failed: { Self → Type 0 };

    /// Takes bytes from the front of `bytes`, and returns how many.
    fn write_some(&mut self, bytes: &[u8]) -> Result<usize, StreamFault>
        ensures bound { WritesAtMost result bytes.now }
        ensures bytes { WriteAppends (held self.old) (held self.new) result bytes.now }
        ensures failed { OnErr result (has_failed self.new) }
        ensures took_none { IfOk result (λ n. n ≡ 0 → 0 < length bytes.now → has_failed self.new) };
}
