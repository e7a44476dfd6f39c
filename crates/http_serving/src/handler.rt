//! What messages are handed to.

ghost use Rattle.std.specs.Prelude.{◌≡◌, ℕ, List};
ghost use Rattle.http_responses.specs.Answers.{answer_bytes};
ghost use Rattle.http_serving.specs.Missing.{Misses};

use http_responses::Answer;
use std::alloc::Global;

/// What messages are handed to.
pub trait Handler {
    /// These bytes are a whole message, or can never be one; no further bytes change that.
    ghost settled: { Self → List ℕ → Type 0 };

    /// Bytes after these may matter.
    ghost wanting: { Self → List ℕ → Type 0 };

    /// The state before, the moment, the message, the bytes of its answer, and the state after.
    ghost handles: { Self → ℕ → List ℕ → List ℕ → Self → Type 0 };

    /// How many more bytes are needed at least before these may be settled. At 0 they are, and no more are read.
    fn missing(&self, bytes: &[u8]) -> usize
        ensures none { result ≡ 0 → settled self.now bytes.now }
        ensures some { Misses (wanting self.now) bytes.now result };

    /// Does what the message asks, and answers it.
    fn handle(&mut self, alloc: Global, now: u64, bytes: &[u8]) -> Answer
        ensures { handles self.old now bytes.now (answer_bytes result) self.new };
}
