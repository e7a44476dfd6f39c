//! The two sides of a connection, each with its time limit, and the end of the connection.

ghost use Rattle.std.specs.Prelude.{None, ⊤};

use http_serving::{Sink, Source, StreamFault};
use std::io;
use std::io::{ErrorKind, Read, Write};
use std::net::{Shutdown, TcpStream};
use std::time::{Duration, Instant};

/// How long a message may take, from its first read to its last byte, and how long its answer may take, in seconds.
const MOST_SECONDS: u64 = 10;

/// How long a connection lingers after its answer, in seconds.
const LINGER_SECONDS: u64 = 2;

/// The most bytes that are thrown away after an answer.
const MOST_THROWN_AWAY: u64 = 1_048_576;

/// The longest that one wait on a socket takes, in seconds. A side with more time left waits again. So a socket gets its
/// time-out once, except if the client is slow.
const WAIT_SECONDS: u64 = 2;

/// More waits than the time of a side takes.
const MOST_WAITS: u32 = 100;

/// A side of a connection. Its reads or writes have so many seconds in all, counted from the first one.
#[derive(Drop)]
pub struct Timed<'a> {
    rt: &'a HostRuntime,
    stream: TcpStream,
    seconds: u64,
    since: Option<Instant>,
    /// The time-out that the socket has for this side, if it was set.
    wait: Option<Duration>,
}

impl<'a> Timed<'a> {
    /// A side with all of its time left.
    pub(crate) fn new(rt: &'a HostRuntime, stream: TcpStream) -> Timed<'a> {
        Timed {
            rt,
            stream,
            seconds: MOST_SECONDS,
            since: None,
            wait: None,
        }
    }

    /// The same side with so many seconds from its next read or write on.
    fn again(self, seconds: u64) -> Timed<'a> {
        Timed {
            rt: self.rt,
            stream: self.stream,
            seconds,
            since: None,
            wait: self.wait,
        }
    }

    /// What is left of its time.
    fn left(&mut self) -> io::Result<Duration> {
        let now = Instant::now(self.rt)?;
        let since = self.since.unwrap_or(now);
        self.since = Some(since);
        Ok(Duration::from_secs(self.seconds).saturating_sub(now.duration_since(since)))
    }

    /// How long the next wait takes at most, if the socket has another time-out. With no time left, a socket refuses it.
    fn next_wait(&mut self) -> io::Result<Option<Duration>> {
        let wait = Some(self.left()?.min(Duration::from_secs(WAIT_SECONDS)));
        if wait == self.wait {
            return Ok(None);
        }
        self.wait = wait;
        Ok(wait)
    }
}

/// Whether a read or write ended because its wait was over.
fn is_over(done: &io::Result<usize>) -> bool {
    match done {
        Ok(_) => false,
        Err(error) => matches!(error.kind(), ErrorKind::WouldBlock | ErrorKind::TimedOut),
    }
}

impl Read for Timed<'_> {
    /// A read that waits for what is left of the time at most, and then fails.
    fn read(&mut self, buf: &mut [u8]) -> io::Result<usize> {
        for _ in 0..MOST_WAITS {
            if let Some(wait) = self.next_wait()? {
                self.stream.set_read_timeout(Some(wait))?;
            }
            let read = self.stream.read(buf);
            if !is_over(&read) {
                return read;
            }
        }
        Err(io::Error::from(ErrorKind::TimedOut))
    }
}

impl Write for Timed<'_> {
    /// A write that waits for what is left of the time at most, and then fails.
    fn write(&mut self, buf: &[u8]) -> io::Result<usize> {
        for _ in 0..MOST_WAITS {
            if let Some(wait) = self.next_wait()? {
                self.stream.set_write_timeout(Some(wait))?;
            }
            let written = self.stream.write(buf);
            if !is_over(&written) {
                return written;
            }
        }
        Err(io::Error::from(ErrorKind::TimedOut))
    }

    fn flush(&mut self) -> io::Result<()> {
        Ok(())
    }
}

impl Source for Timed<'_> {
    ghost left = { λ _. None };

    ghost steps = { λ _ _. ⊤ };

    ghost has_failed = { λ _. ⊤ };

    fn read_some(&mut self, buf: &mut [u8]) -> Result<usize, StreamFault> {
        Ok(self.read(buf)?)
    }
}

impl Sink for Timed<'_> {
    ghost held = { λ _. None };

    ghost has_failed = { λ _. ⊤ };

    fn write_some(&mut self, bytes: &[u8]) -> Result<usize, StreamFault> {
        Ok(self.write(bytes)?)
    }
}

/// Ends the sending side of a connection, then reads and throws away what still comes, for at most two seconds and 1,048,576
/// bytes. A connection that is closed while bytes are on their way is reset, and then the client may lose the answer.
pub(crate) fn linger(reader: Timed<'_>, writer: Timed<'_>) -> io::Result<()> {
    writer.stream.shutdown(Shutdown::Write)?;
    let reader = reader.again(LINGER_SECONDS);
    io::copy(&mut reader.take(MOST_THROWN_AWAY), &mut io::sink())?;
    Ok(())
}
