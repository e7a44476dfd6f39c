//! Puts rows at their keys, in one transaction.

ghost use Rattle.std.specs.Prelude.{◌≡◌, ◌≢◌, false, [], ◌∷◌, map, option_map, if◌then◌else◌, IsTrue, IfOk, OnOk, OnErr};
ghost use Rattle.sqlite.specs.Held.{state};
ghost use Rattle.sqlite.specs.State.{HasCleanDisk, KeepsCommit, Survives};
ghost use Rattle.sqlite_value.specs.Value.{owned};
ghost use Rattle.table_meaning.specs.Rows.{table_at, columns_of, row_key_of};
ghost use Rattle.table_meaning.specs.Steps.{PutsRows, Moves};
ghost use Rattle.table_rows.specs.Utf8.{HasUtf8, HaveUtf8};

use crate::columns::values_of;
use crate::connection::test_open;
use crate::statements::{put_text, update_text};
use sqlite::types::ValueRef;
use sqlite::{Alter, Connection, Error, ErrorCode, Transaction};
use std::alloc::Global;
use table_meaning::rows::{RowChange, StoredRow};

/// Puts one row at its key, and replaces a row that exists there. If it is an update, and its table has a statement
/// that updates a row, that statement is tried first.
fn put_row<S: Alter>(
    alloc: Global,
    tx: &mut Transaction<'_, S>,
    row: &StoredRow,
    is_update: bool,
) -> Result<(), Error>
    ensures same_reference { tx.new.conn.ghost_name ≡ tx.old.conn.ghost_name }
    ensures survives { Survives (state S.Store tx.old.conn.now) (state S.Store tx.new.conn.now) (λ _. ⊥) }
    ensures kept { HasCleanDisk (state S.Store tx.new.conn.now) → KeepsCommit (state S.Store tx.old.conn.now) (state S.Store tx.new.conn.now) }
    ensures moves { HasCleanDisk (state S.Store tx.new.conn.now) → IsTrue (state S.Store tx.old.conn.now).in_transaction
        → OnOk result (Moves (state S.Store tx.old.conn.now) (state S.Store tx.new.conn.now) (row.now ∷ [])) }
    ensures was_open { HasCleanDisk (state S.Store tx.new.conn.now) → IsTrue (state S.Store tx.old.conn.now).in_transaction
        → OnOk result (IsTrue (state S.Store tx.old.conn.now).is_open) }
    ensures utf8 { OnOk result (HasUtf8 (columns_of row.now)) }
{
    let values = values_of(alloc, row)?;
    let params = values.as_slice();
    match update_text(row) {
        Some(text) if is_update => {
            let stood = tx.execute(text, params)? > 0;
            if !stood {
                tx.execute(put_text(row), params)?;
            }
            Ok(())
        }
        Some(_) | None => {
            tx.execute(put_text(row), params)?;
            Ok(())
        }
    }
}

/// Puts each row in turn.
pub(crate) fn put_each<S: Alter>(
    alloc: Global,
    tx: &mut Transaction<'_, S>,
    changes: &[RowChange],
) -> Result<(), Error>
    ensures same_reference { tx.new.conn.ghost_name ≡ tx.old.conn.ghost_name }
    ensures survives { Survives (state S.Store tx.old.conn.now) (state S.Store tx.new.conn.now) (λ _. ⊥) }
    ensures kept { HasCleanDisk (state S.Store tx.new.conn.now) → KeepsCommit (state S.Store tx.old.conn.now) (state S.Store tx.new.conn.now) }
    ensures moves { HasCleanDisk (state S.Store tx.new.conn.now) → IsTrue (state S.Store tx.old.conn.now).in_transaction
        → OnOk result (Moves (state S.Store tx.old.conn.now) (state S.Store tx.new.conn.now) changes.now) }
    ensures was_open { HasCleanDisk (state S.Store tx.new.conn.now) → IsTrue (state S.Store tx.old.conn.now).in_transaction → changes.now ≢ []
        → OnOk result (IsTrue (state S.Store tx.old.conn.now).is_open) }
    ensures utf8 { OnOk result (HaveUtf8 changes.now) }
{
    for change in changes {
        put_row(alloc, tx, change.row(), change.is_update())?;
    }
    Ok(())
}

/// Puts each of the rows at its key, in order: all of them or none. If there is no row, nothing is written. It succeeds
/// only if no fault has shut the connection. A stop at any moment leaves what a stop could leave before, or all the
/// rows. It leaves these only if the connection was open. Each text that is put is in UTF-8.
pub fn put_rows<S: Alter>(
    alloc: Global,
    conn: &mut Connection<S>,
    changes: &[RowChange],
) -> Result<(), Error>
    ensures was_open { HasCleanDisk (state S.Store conn.new) → IsTrue (state S.Store conn.new).is_open → IsTrue (state S.Store conn.old).is_open }
    ensures open { HasCleanDisk (state S.Store conn.new) → OnOk result (IsTrue (state S.Store conn.new).is_open) }
    ensures idle { (state S.Store conn.old).in_transaction ≡ false → (state S.Store conn.new).in_transaction ≡ false }
    ensures both { HasCleanDisk (state S.Store conn.new) → IsTrue (state S.Store conn.new).is_open → OnOk result (PutsRows (state S.Store conn.old).now (state S.Store conn.new).committed changes.now) }
    ensures rest { HasCleanDisk (state S.Store conn.new) → IsTrue (state S.Store conn.new).is_open → OnOk result ((state S.Store conn.new).now ≡ (state S.Store conn.new).committed) }
    ensures neither { HasCleanDisk (state S.Store conn.new) → IsTrue (state S.Store conn.new).is_open
        → OnErr result (((state S.Store conn.new).now ≡ (state S.Store conn.old).now) × ((state S.Store conn.new).committed ≡ (state S.Store conn.old).committed)) }
    ensures utf8 { OnOk result (HaveUtf8 changes.now) }
    ensures crash { Survives (state S.Store conn.old) (state S.Store conn.new)
        (λ trees. IsTrue (state S.Store conn.old).is_open × HaveUtf8 changes.now × (db : _) × PutsRows (state S.Store conn.old).now db changes.now × (trees ≡ db.trees)) }
{
    if !conn.is_autocommit() {
        return Err(Error::SqliteFailure(ErrorCode::TransactionState));
    }
    if changes.is_empty() {
        return test_open(conn);
    }
    let mut tx = conn.transaction();
    put_each(alloc, &mut tx, changes)?;
    tx.commit()
}
