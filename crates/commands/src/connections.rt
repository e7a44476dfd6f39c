//! Where connections come from.

ghost use Rattle.std.specs.Prelude.{ℕ, Option, IfOk};
ghost use Rattle.commands.specs.declared.connections.Accepted.{Accepted};

use crate::connection::{Timed, linger};
use crate::ending::Failure;
use http_serving::{Sink, Source};
use std::net::TcpListener;
use std::time::SystemTime;

/// A connection that was accepted.
#[derive(Drop)]
pub struct Accepted<R, W> {
    /// What the client sends.
    pub reader: R,
    /// What the client gets.
    pub writer: W,
    /// The moment of the accept, in seconds since 1970-01-01T00:00:00Z, or a number that is no moment if the clock can't be read.
    pub now: u64,
}

/// The connections of clients to a port, one after the other. `main` passes those of the operating system,
/// [`SystemConnections`].
///
/// No code can know who connects, or what a client sends and gets. So each call is a step that ghost members name: what is
/// proved for any `Connections` holds for whatever comes.
pub trait Connections {
    /// What a client sends.
    type Reader: Source + Drop;

    /// What a client gets.
    type Writer: Sink + Drop;

    /// In the first state it began to listen on this port of 127.0.0.1. The second state is that after it.
    ghost listens: { Self → ℕ → Self → Type 0 };

    /// In the first state it waited for the next connection. This one came, or none, since a call of the system failed.
    ghost accepts: { Self → Option (Accepted Self.Reader Self.Writer) → Self → Type 0 };

    /// In the first state a connection was ended, whose reader and writer were these at the end.
    ghost ends: { Self → Self.Reader → Self.Writer → Self → Type 0 };

    /// Listens on a port of 127.0.0.1.
    fn listen(&mut self, port: u16) -> Result<(), Failure>
        ensures { IfOk result (λ _. listens self.old port self.new) };

    /// Waits for the next connection.
    fn accept(&mut self) -> Option<Accepted<Self::Reader, Self::Writer>>
        ensures { accepts self.old result self.new };

    /// Ends a connection. One that was answered lingers, so that the client does not lose the answer.
    fn end(&mut self, reader: Self::Reader, writer: Self::Writer, is_answered: bool)
        ensures { ends self.old reader writer self.new };
}

/// The connections of the operating system.
#[derive(Drop)]
pub struct SystemConnections<'a> {
    rt: &'a HostRuntime,
    listener: Option<TcpListener>,
}

impl<'a> SystemConnections<'a> {
    /// Connections to no port yet.
    pub fn new(rt: &'a HostRuntime) -> SystemConnections<'a> {
        SystemConnections { rt, listener: None }
    }

    /// Connections to the port of a listener.
    pub(crate) fn on(rt: &'a HostRuntime, listener: TcpListener) -> SystemConnections<'a> {
        SystemConnections {
            rt,
            listener: Some(listener),
        }
    }
}

impl<'a> Connections for SystemConnections<'a> {
    type Reader = Timed<'a>;

    type Writer = Timed<'a>;

    ghost listens = { λ _ _ _. Unit {0} };

    ghost accepts = { λ _ _ _. Unit {0} };

    ghost ends = { λ _ _ _ _. Unit {0} };

    fn listen(&mut self, port: u16) -> Result<(), Failure> {
        self.listener = Some(TcpListener::bind(self.rt, ("127.0.0.1", port))?);
        Ok(())
    }

    fn accept(&mut self) -> Option<Accepted<Timed<'a>, Timed<'a>>> {
        let listener = self.listener.as_ref()?;
        let (stream, _) = listener.accept().ok()?;
        let now = seconds_now(self.rt);
        let other = stream.try_clone().ok()?;
        Some(Accepted {
            reader: Timed::new(self.rt, other),
            writer: Timed::new(self.rt, stream),
            now,
        })
    }

    /// A fault in lingering has no effect.
    fn end(&mut self, reader: Timed<'a>, writer: Timed<'a>, is_answered: bool) {
        if is_answered {
            let _lingered = linger(reader, writer);
        }
    }
}

/// The seconds since 1970-01-01T00:00:00Z, or a number that is no moment if the clock can't be read.
fn seconds_now(rt: &HostRuntime) -> u64 {
    let Ok(now) = SystemTime::now(rt) else {
        return u64::MAX;
    };
    match now.duration_since(SystemTime::UNIX_EPOCH) {
        Ok(since) => since.as_secs(),
        Err(_) => u64::MAX,
    }
}
