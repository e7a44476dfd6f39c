//! A sink that is looked at while an answer is written.

ghost use Rattle.std.specs.Prelude.{◌≡◌};

use http_serving::{Sink, StreamFault};

/// How an answer with status 503 begins.
const UNAVAILABLE: &[u8] = b"HTTP/1.1 503 ";

/// A sink that takes an answer, and remembers whether the first bytes were those of one with status 503.
pub(crate) struct Watched<W> {
    sink: W,
    is_unavailable: Option<bool>,
}

impl<W> Watched<W> {
    /// A sink that has taken nothing yet.
    pub(crate) fn new(sink: W) -> Watched<W>
        ensures { result.sink ≡ sink }
    {
        Watched {
            sink,
            is_unavailable: None,
        }
    }

    /// The sink, and whether an answer with status 503 was written, or at least begun.
    pub(crate) fn into_parts(self) -> (W, bool)
        ensures { result.0 ≡ self.sink }
    {
        let Watched {
            sink,
            is_unavailable,
        } = self;
        (sink, is_unavailable.unwrap_or(false))
    }
}

impl<W: Sink> Sink for Watched<W> {
    ghost held = { λ watched. W.held watched.sink };

    ghost has_failed = { λ watched. W.has_failed watched.sink };

    fn write_some(&mut self, bytes: &[u8]) -> Result<usize, StreamFault> {
        if self.is_unavailable.is_none() {
            self.is_unavailable = Some(bytes.starts_with(UNAVAILABLE));
        }
        self.sink.write_some(bytes)
    }
}
