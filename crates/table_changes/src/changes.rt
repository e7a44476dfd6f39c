//! The rows that changes put.

ghost use Rattle.std.specs.Prelude.{IfOk};
ghost use Rattle.sched_book.specs.Delta.{applied};
ghost use Rattle.sched_book.specs.Trusted.{Trusted};
ghost use Rattle.table_worlds.specs.Changes.{AreChanges};
ghost use Rattle.table_worlds.specs.Readable.{IsReadable};

use crate::calls::rows_of_call;
use crate::imports::rows_of_import;
use sched_book::{Delta, Desk, Unavailable};
use std::alloc::Global;
use table_meaning::rows::RowChange;
use texts::Listed;

/// The rows that these changes of the desk's world put. Each row comes after those that it refers to.
///
/// # Errors
///
/// [`Unavailable`] if out of memory, if the desk is unavailable, or if a table can't hold a number of a row. Also if new
/// rows name an application that does not exist. Also if edits give a host platforms that are not words, or put a host or
/// an instance beyond the next.
pub fn rows_of_changes<D: Desk>(
    alloc: Global,
    desk: &mut D,
    delta: &Delta,
) -> Result<Listed<RowChange>, Unavailable>
    ensures reads { D.reads desk.old desk.new }
    ensures rows { Trusted D.Units desk.old desk.new (IsReadable (D.world desk.old) →
        IfOk result (AreChanges (D.world desk.old) (applied (D.world desk.old) delta.now))) }
    ensures readable { Trusted D.Units desk.old desk.new (IsReadable (D.world desk.old) →
        IfOk result (λ rows. IsReadable (applied (D.world desk.old) delta.now))) }
{
    match delta {
        Delta::Rows(rows) => rows_of_import(alloc, desk, rows),
        Delta::Edits(edits) => rows_of_call(alloc, desk, edits),
    }
}
