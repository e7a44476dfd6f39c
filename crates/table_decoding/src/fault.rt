//! Why a row is not that of a world.

use sched_book::{Cause, Unavailable};
use std::alloc::AllocError;
use std::error::Error;
use std::fmt;

/// Why a row is not that of a world.
#[derive(Clone, Copy, Debug, PartialEq, Eq)]
pub enum RowFault {
    /// The row does not have the form of its table, or has a value out of range.
    BadRow,
    /// Out of memory.
    Unavailable,
}

impl fmt::Display for RowFault {
    fn fmt<W: fmt::Write>(&self, f: &mut fmt::Formatter<W>) -> fmt::Result {
        match self {
            RowFault::BadRow => write!(f, "a row is not that of a world"),
            RowFault::Unavailable => write!(f, "unavailable"),
        }
    }
}

impl Error for RowFault {}

impl From<AllocError> for RowFault {
    ghost use Rattle.std.specs.Prelude.{◌≡◌};
    ghost use Rattle.table_decoding.specs.declared.fault.RowFault.TheVariants.{Unavailable};

    ghost from_gives = { λ _ fault. fault ≡ Unavailable };

    fn from(_: AllocError) -> RowFault {
        RowFault::Unavailable
    }
}

impl From<RowFault> for Unavailable {
    fn from(fault: RowFault) -> Unavailable {
        match fault {
            RowFault::BadRow => Unavailable(Cause::BadRow),
            RowFault::Unavailable => Unavailable(Cause::Memory),
        }
    }
}
