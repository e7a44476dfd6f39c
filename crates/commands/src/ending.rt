//! How an order ends.

ghost use Rattle.std.specs.Prelude.{◌≡◌};
ghost use Rattle.std.specs.IoError.{error_kind};
ghost use Rattle.commands.specs.Endings.{status_of_ending, status_of_failure, failure_of_system, failure_of_library, failure_of_tables};
ghost use Rattle.commands.specs.declared.ending.Failure.TheVariants as failure;

use replay_lines::Ended;
use sched_tables::OpenFault;
use sqlite::{Error, ErrorCode};
use std::io::ErrorKind;
use std::{fmt, io};
use texts::Memory;

/// How an order ended that was done.
#[derive(Clone, Copy, Debug, PartialEq, Eq)]
pub enum Ending {
    /// All of it was done.
    Done,
    /// Its message was refused. The refusal is printed.
    Refused,
}

impl Ending {
    /// The exit status of a program that ends so.
    pub fn status(self) -> u8
        ensures { result ≡ status_of_ending self }
    {
        match self {
            Ending::Done => 0,
            Ending::Refused => 1,
        }
    }
}

/// Why an order was not done.
#[derive(Clone, Copy, Debug, PartialEq, Eq)]
pub enum Failure {
    /// The settings file has no settings in it.
    Settings,
    /// A file, a socket or a stream failed, or a file has no tables of this program.
    File,
    /// The tables are of an older schema. They must be upgraded.
    OldSchema,
    /// This line of a replay is no message. Lines count from 1.
    Line(u32),
    /// Memory ran out, or the disk failed.
    Unavailable,
}

impl Failure {
    /// The exit status of a program that ends so.
    pub fn status(self) -> u8
        ensures { result ≡ status_of_failure self }
    {
        match self {
            Failure::Settings | Failure::File | Failure::OldSchema | Failure::Line(_) => 1,
            Failure::Unavailable => 2,
        }
    }
}

impl fmt::Display for Failure {
    fn fmt<W: fmt::Write>(&self, f: &mut fmt::Formatter<W>) -> fmt::Result {
        match self {
            Failure::Settings => write!(f, "settings"),
            Failure::File => write!(f, "file"),
            Failure::OldSchema => write!(f, "old schema"),
            Failure::Line(number) => write!(f, "line {number}"),
            Failure::Unavailable => write!(f, "unavailable"),
        }
    }
}

impl std::error::Error for Failure {}

impl From<Memory> for Failure {
    ghost from_gives = { λ _ given. given ≡ failure.Unavailable };

    fn from(_memory: Memory) -> Failure {
        Failure::Unavailable
    }
}

impl From<io::Error> for Failure {
    ghost from_gives = { λ error given. given ≡ failure_of_system (error_kind error) };

    fn from(error: io::Error) -> Failure {
        match error.kind() {
            ErrorKind::OutOfMemory => Failure::Unavailable,
            _ => Failure::File,
        }
    }
}

impl From<Error> for Failure {
    ghost from_gives = { λ error given. given ≡ failure_of_library error };

    fn from(error: Error) -> Failure {
        match error {
            Error::SqliteFailure(ErrorCode::OutOfMemory) => Failure::Unavailable,
            _ => Failure::File,
        }
    }
}

impl From<OpenFault> for Failure {
    ghost from_gives = { λ fault given. given ≡ failure_of_tables fault };

    fn from(fault: OpenFault) -> Failure {
        match fault {
            OpenFault::NotTables | OpenFault::BadRow => Failure::File,
            OpenFault::OldSchema(_) => Failure::OldSchema,
            OpenFault::Unavailable(_) => Failure::Unavailable,
        }
    }
}

/// What an order leaves of the files of its tables. They are closed when this is dropped.
#[derive(Drop)]
pub enum Left<S, R> {
    /// It opened none: it has no tables, or something was in its way before.
    Nothing,
    /// It opened them, and could not make or open tables. This is left.
    Refused(R),
    /// The store under the tables, after the order.
    Tables(S),
}

/// What an order came to.
#[derive(Drop)]
pub struct Performed<S, R> {
    /// How it ended.
    pub ended: Result<Ending, Failure>,
    /// What it leaves of the files of its tables.
    pub left: Left<S, R>,
}

impl<S, R> Performed<S, R> {
    /// An order that opened no tables.
    pub(crate) fn without_tables(ended: Result<Ending, Failure>) -> Performed<S, R>
        ensures ended { result.ended ≡ ended }
        ensures left { result.left ≡ Left.Nothing }
    {
        Performed {
            ended,
            left: Left::Nothing,
        }
    }

    /// An order that could not make or open its tables.
    pub(crate) fn refused(failure: Failure, rest: R) -> Performed<S, R>
        ensures ended { result.ended ≡ Err failure }
        ensures left { result.left ≡ Left.Refused rest }
    {
        Performed {
            ended: Err(failure),
            left: Left::Refused(rest),
        }
    }

    /// An order that leaves the store under its tables.
    pub(crate) fn leaving(ended: Result<Ending, Failure>, store: S) -> Performed<S, R>
        ensures ended { result.ended ≡ ended }
        ensures left { result.left ≡ Left.Tables store }
    {
        Performed {
            ended,
            left: Left::Tables(store),
        }
    }
}

/// How a replay ended.
pub(crate) fn ended(ended: Ended) -> Result<Ending, Failure> {
    match ended {
        Ended::Good => Ok(Ending::Done),
        Ended::Line(number) => Err(Failure::Line(number)),
        Ended::File => Err(Failure::File),
        Ended::Unavailable => Err(Failure::Unavailable),
    }
}
