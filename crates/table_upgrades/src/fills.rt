//! Fills the tables that a schema adds from the tables of the schema before it, one row at a time.

ghost use Rattle.std.specs.Prelude.{◌≡◌, ◌+◌, ℕ, IsTrue, IfOk, IfErr, OnOk};
ghost use Rattle.sqlite_trees.specs.declared.store.Shape.TheVariants.{Table as TableTree};
ghost use Rattle.sqlite_trees.specs.View.{IsShaped};
ghost use Rattle.sqlite.specs.Held.{state};
ghost use Rattle.sqlite.specs.State.{HasCleanDisk};
ghost use Rattle.table_meaning.specs.Schema.{schema_at};
ghost use Rattle.table_meaning.specs.Fills.{source_of, schema_with, fills_of as sql_fills, IsNextRow, Fills, FillsNext, FillsAll, FillsEach};
ghost use Rattle.table_rows.specs.Refusing.{SparesSchema};
ghost use Rattle.table_upgrades.specs.Frames.{WithinTransaction, StaysWithin};

use sqlite::{Alter, Error, Transaction};
use std::alloc::Global;
use table_meaning::tables::Fill;
use table_rows::statements::{fill_text, fills_of, next_text};
use table_rows::values::whole;
use table_rows::{Cause, Invariant, OpenFault, fields};

/// Returns the next number, from this one on, of a row that the fill copies. `BadRow` if the number is out of range.
fn next_number<S: Alter>(
    alloc: Global,
    tx: &mut Transaction<'_, S>,
    fill: Fill,
    from: u32,
) -> Result<Option<u32>, OpenFault>
    ensures within { WithinTransaction S.Store tx.old.conn tx.new.conn }
    ensures inside { OnOk result (StaysWithin S.Store tx.old.conn tx.new.conn) }
    ensures next { HasCleanDisk (state S.Store tx.new.conn.now) → (state S.Store tx.old.conn.now).now.schema ≡ schema_at (schema_with fill)
        → IsShaped TableTree ((state S.Store tx.old.conn.now).now.trees (source_of fill).tree)
        → IfOk result (λ next. ((state S.Store tx.new.conn.now).now ≡ (state S.Store tx.old.conn.now).now) × IsNextRow (source_of fill) (state S.Store tx.old.conn.now).now.trees from next) }
    ensures fault { IfErr result SparesSchema }
{
    let rows = tx.query_all(next_text(fill), &[whole(from)])?;
    let Some(row) = rows.first() else {
        return Ok(None);
    };
    let Ok(number) = fields::whole(alloc, row, 0) else {
        return Err(OpenFault::BadRow);
    };
    Ok(Some(number))
}

/// Inserts what the fill copies from the row of this number, if it exists.
fn fill_one<S: Alter>(tx: &mut Transaction<'_, S>, fill: Fill, number: u32) -> Result<(), Error>
    ensures within { WithinTransaction S.Store tx.old.conn tx.new.conn }
    ensures inside { OnOk result (StaysWithin S.Store tx.old.conn tx.new.conn) }
    ensures fills { HasCleanDisk (state S.Store tx.new.conn.now) → IsTrue (state S.Store tx.old.conn.now).in_transaction
        → OnOk result (Fills fill number (number + 1) (state S.Store tx.old.conn.now).now (state S.Store tx.new.conn.now).now) }
{
    tx.execute(fill_text(fill), &[whole(number)])?;
    Ok(())
}

/// Inserts what the fill copies from the next row, from this number on. Returns the number to continue from, or `None`
/// if there is no next row.
fn fill_next<S: Alter>(
    alloc: Global,
    tx: &mut Transaction<'_, S>,
    fill: Fill,
    from: u32,
) -> Result<Option<u32>, OpenFault>
    ensures within { WithinTransaction S.Store tx.old.conn tx.new.conn }
    ensures inside { OnOk result (StaysWithin S.Store tx.old.conn tx.new.conn) }
    ensures fills { HasCleanDisk (state S.Store tx.new.conn.now) → IsTrue (state S.Store tx.old.conn.now).in_transaction
        → IfOk result (λ next. FillsNext fill from next (state S.Store tx.old.conn.now).now (state S.Store tx.new.conn.now).now) }
    ensures fault { IfErr result SparesSchema }
{
    let Some(number) = next_number(alloc, tx, fill, from)? else {
        return Ok(None);
    };
    fill_one(tx, fill, number)?;
    let Some(next) = number.checked_add(1) else {
        return Err(OpenFault::BadRow);
    };
    Ok(Some(next))
}

/// Inserts all that the fill copies, one row after another.
fn fill_all<S: Alter>(
    alloc: Global,
    tx: &mut Transaction<'_, S>,
    fill: Fill,
) -> Result<(), OpenFault>
    ensures within { WithinTransaction S.Store tx.old.conn tx.new.conn }
    ensures inside { OnOk result (StaysWithin S.Store tx.old.conn tx.new.conn) }
    ensures fills { HasCleanDisk (state S.Store tx.new.conn.now) → IsTrue (state S.Store tx.old.conn.now).in_transaction
        → OnOk result (FillsAll fill 0 (state S.Store tx.old.conn.now).now (state S.Store tx.new.conn.now).now) }
    ensures fault { IfErr result SparesSchema }
{
    let mut from = 0;
    'rows: for _ in 0..u64::MAX {
        let Some(next) = fill_next(alloc, tx, fill, from)? else {
            return Ok(());
        };
        from = next;
    }
    Err(OpenFault::Unavailable(Cause::Broken(Invariant::RowsOfFill)))
}

/// Fills the tables that the schema after this one adds.
pub(crate) fn fill_tables<S: Alter>(
    alloc: Global,
    tx: &mut Transaction<'_, S>,
    schema: u32,
) -> Result<(), OpenFault>
    ensures within { WithinTransaction S.Store tx.old.conn tx.new.conn }
    ensures inside { OnOk result (StaysWithin S.Store tx.old.conn tx.new.conn) }
    ensures fills { HasCleanDisk (state S.Store tx.new.conn.now) → IsTrue (state S.Store tx.old.conn.now).in_transaction
        → OnOk result (FillsEach (sql_fills schema) (state S.Store tx.old.conn.now).now (state S.Store tx.new.conn.now).now) }
    ensures fault { IfErr result SparesSchema }
{
    for fill in fills_of(schema) {
        fill_all(alloc, tx, *fill)?;
    }
    Ok(())
}
