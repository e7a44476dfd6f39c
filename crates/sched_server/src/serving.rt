//! One message, from a reader to a writer.

ghost use Rattle.std.specs.Prelude.{◌≡◌, ◌⊎◌, OnOk, IsErrOf};
ghost use Rattle.std.specs.Io.KnownBytes.{Appends};
ghost use Rattle.http_serving.specs.Streams.{IsWritten, StepsInTurn};
ghost use Rattle.sched_server.specs.Serving.{ServesStream};

use crate::service::Service;
use http_serving::{IoFault, Sink, Source, serve_one};
use std::alloc::Global;
use stores::Store;

impl<S: Store> Service<S> {
    /// Serves one message: reads it, handles it at this moment, and writes the answer. The moment is in seconds since
    /// 1970-01-01T00:00:00Z. If there is no memory for the whole message, or the moment is out of range, the answer is
    /// `unavailable` and nothing changes.
    ///
    /// # Errors
    ///
    /// [`IoFault::Read`] if a read failed, or after 2,000,000 reads. Then the service is as it was, and nothing was
    /// written. [`IoFault::Write`] if a write failed. Then the message was handled, and a front of the answer was written.
    pub fn serve<R: Source, W: Sink>(
        &mut self,
        alloc: Global,
        now: u64,
        reader: &mut R,
        writer: &mut W,
    ) -> Result<(), IoFault>
        ensures ok { OnOk result (ServesStream S.Store now (R.left reader.old) (R.left reader.new) (Appends (W.held writer.old) (W.held writer.new)) self.old self.new) }
        ensures read_fault { IsErrOf result IoFault.Read → (self.new ≡ self.old) × (writer.new ≡ writer.old) }
        ensures read_failed { IsErrOf result IoFault.Read → R.has_failed reader.new ⊎ StepsInTurn R.steps 2_000_000 reader.old reader.new }
        ensures write_fault { IsErrOf result IoFault.Write
            → ServesStream S.Store now (R.left reader.old) (R.left reader.new) (IsWritten (W.held writer.old) (W.held writer.new)) self.old self.new }
        ensures write_failed { IsErrOf result IoFault.Write → W.has_failed writer.new }
    {
        serve_one(alloc, self, now, reader, writer)
    }
}
