//! Reads tables one row at a time.

ghost use Rattle.std.specs.Prelude.{◌⊎◌, ◌≡◌, IfErr, OnOk};
ghost use Rattle.sqlite.specs.Held.{state};
ghost use Rattle.sqlite.specs.State.{HasCleanDisk};
ghost use Rattle.table_meaning.specs.Formats.{HasBadRow};
ghost use Rattle.table_meaning.specs.Holding.{AreKnown};
ghost use Rattle.table_meaning.specs.Reads.{Reads};
ghost use Rattle.table_meaning.specs.Rows.{rows_in};
ghost use Rattle.table_rows.specs.Visits.{VisitsRows, RefusesRow};

use crate::columns::stored_row;
use crate::opening::OpenFault;
use crate::statements::read_text;
use sched_book::{Cause, Invariant};
use sqlite::{Alter, Connection};
use std::alloc::Global;
use table_meaning::rows::StoredRow;
use table_meaning::tables::TableName;

/// An object that is given the rows of a table, one at a time.
pub trait RowVisitor {
    ghost use Rattle.table_meaning.specs.declared.rows.StoredRow.{StoredRow};

    /// What taking a row does: the visitor before, the row, and the visitor after.
    ghost takes: { Self → StoredRow → Self → Type 0 };

    /// The rows that it refuses.
    ghost refuses: { Self → StoredRow → Type 0 };

    /// Takes the row. `BadRow` if it refuses the row.
    fn visit(&mut self, row: StoredRow) -> Result<(), OpenFault>
        ensures takes { OnOk result (takes self.old row self.new) }
        ensures refuses { IfErr result (λ e. e ≡ OpenFault.BadRow → refuses self.old row) };
}

/// Gives the visitor each row of the table with its types, in order. Only the row at hand is in memory. `BadRow` if a
/// row does not have the format of the table, or if the visitor refuses one. What the connection shows is unchanged.
pub fn visit_rows<S: Alter, V: RowVisitor>(
    alloc: Global,
    conn: &mut Connection<S>,
    table: TableName,
    visitor: &mut V,
) -> Result<(), OpenFault>
    ensures reads { Reads (state S.Store conn.old) (state S.Store conn.new) }
    ensures rows { HasCleanDisk (state S.Store conn.new) → AreKnown (state S.Store conn.old).now
        → OnOk result (VisitsRows V.takes table visitor.old (rows_in (state S.Store conn.old).now.trees table) visitor.new) }
    ensures bad { HasCleanDisk (state S.Store conn.new) → AreKnown (state S.Store conn.old).now
        → IfErr result (λ e. e ≡ OpenFault.BadRow → HasBadRow table (rows_in (state S.Store conn.old).now.trees table) ⊎ RefusesRow V.takes V.refuses table (rows_in (state S.Store conn.old).now.trees table) visitor.old) }
{
    let mut rows = conn.query(read_text(table), &[])?;
    'rows: for _ in 0..u64::MAX {
        let Some(row) = rows.next()? else {
            return Ok(());
        };
        let stored = stored_row(alloc, table, row)?;
        visitor.visit(stored)?;
    }
    Err(OpenFault::Unavailable(Cause::Broken(Invariant::RowsOfTable)))
}
