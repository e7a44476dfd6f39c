//! The keys of a world's rows.

ghost use Rattle.std.specs.Prelude.{◌≡◌, ◌+◌, ◌++◌, IfOk, OnOk};
ghost use Rattle.table_worlds.specs.Keys.{keyed, numbered};

use sched_book::{Cause, Invariant, Place, Unavailable};
use texts::Listed;

/// The key of a row of a world: a place or a number, counted from 1, or the place of an instance. A class has the
/// number of its version, a mark that of its workunit.
#[derive(Clone, Copy)]
pub enum WorldKey {
    Account(u32),
    App(u32),
    Version(u32),
    Class(u32),
    Unit(u32),
    Mark(u32),
    Host(u32),
    Instance(Place),
}

/// The tables whose keys are numbers.
#[derive(Clone, Copy)]
pub enum NumberedTable {
    Account,
    App,
    Version,
    Class,
    Unit,
    Mark,
    Host,
}

impl NumberedTable {
    /// The key of the row of this number.
    fn key(self, number: u32) -> WorldKey
        ensures { result ≡ keyed self number }
    {
        match self {
            NumberedTable::Account => WorldKey::Account(number),
            NumberedTable::App => WorldKey::App(number),
            NumberedTable::Version => WorldKey::Version(number),
            NumberedTable::Class => WorldKey::Class(number),
            NumberedTable::Unit => WorldKey::Unit(number),
            NumberedTable::Mark => WorldKey::Mark(number),
            NumberedTable::Host => WorldKey::Host(number),
        }
    }
}

/// The number of the row at an index. It counts from 1.
pub(crate) fn number_of(index: usize) -> Result<u32, Unavailable>
    ensures { IfOk result (λ number. number ≡ index + 1) }
{
    match u32::try_from(index) {
        Ok(index) => index
            .checked_add(1)
            .ok_or(Unavailable(Cause::Broken(Invariant::NumberOfRow))),
        Err(_) => Err(Unavailable(Cause::Broken(Invariant::NumberOfRow))),
    }
}

/// Appends the keys of the first `count` rows of a table.
pub(crate) fn push_numbered(
    keys: &mut Listed<WorldKey>,
    table: NumberedTable,
    count: usize,
) -> Result<(), Unavailable>
    ensures { OnOk result (keys.new ≡ keys.old ++ numbered table count) }
{
    for index in 0..count {
        keys.push(table.key(number_of(index)?))?;
    }
    Ok(())
}
