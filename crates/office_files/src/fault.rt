//! Why the rows of an import are refused.

ghost use Rattle.std.specs.Prelude.{◌≡◌};
ghost use Rattle.office_files.specs.Faults.{refusal_of};
ghost use Rattle.office_files.specs.declared.fault.RowsFault.TheVariants.{Unavailable};

use rpc_records::Fault;
use sched_book::Cause;
use std::error::Error;
use std::fmt;
use texts::Memory;

/// Why the rows of an import are refused.
#[derive(Clone, Copy, Debug, PartialEq, Eq)]
pub enum RowsFault {
    /// The first faulty row of the text, and in it the first faulty column. Both count from 1; row 0 is the header,
    /// and column 0 the whole row.
    BadCsv { row: u64, column: u64 },
    /// The name in this row exists already, or is in a row before it.
    DuplicateName(u64),
    /// This row names an application that does not exist.
    UnknownReference(u64),
    /// More rows than a table may have.
    TableFull,
    /// The rows can't be read or checked, for this cause.
    Unavailable(Cause),
}

impl RowsFault {
    /// Returns its refusal.
    pub fn fault(self) -> Fault
        ensures { result ≡ refusal_of self }
    {
        match self {
            RowsFault::BadCsv { row, column } => Fault::BadCsv { row, column },
            RowsFault::DuplicateName(row) => Fault::DuplicateName(row),
            RowsFault::UnknownReference(row) => Fault::UnknownReference(row),
            RowsFault::TableFull => Fault::TableFull,
            RowsFault::Unavailable(_) => Fault::Unavailable,
        }
    }
}

impl fmt::Display for RowsFault {
    fn fmt<W: fmt::Write>(&self, f: &mut fmt::Formatter<W>) -> fmt::Result {
        match self {
            RowsFault::BadCsv { row, column } => write!(f, "row {row}, column {column} is faulty"),
            RowsFault::DuplicateName(row) => write!(f, "the name in row {row} stands already"),
            RowsFault::UnknownReference(row) => {
                write!(f, "row {row} names an application that does not stand")
            }
            RowsFault::TableFull => write!(f, "more rows than a table may have"),
            RowsFault::Unavailable(_) => write!(f, "unavailable"),
        }
    }
}

impl Error for RowsFault {}

impl From<Memory> for RowsFault {
    ghost use Rattle.sched_book.specs.declared.cause.Cause.TheVariants as cause;

    ghost from_gives = { λ _ fault. fault ≡ Unavailable cause.Memory };

    fn from(_memory: Memory) -> RowsFault {
        RowsFault::Unavailable(Cause::Memory)
    }
}

impl From<sched_book::Unavailable> for RowsFault {
    ghost from_gives = { λ unavailable fault. fault ≡ Unavailable unavailable.0 };

    fn from(unavailable: sched_book::Unavailable) -> RowsFault {
        RowsFault::Unavailable(unavailable.0)
    }
}
