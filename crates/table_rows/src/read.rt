//! The rows that a statement shows: all of them, or the first one.

ghost use Rattle.std.specs.Prelude.{◌≡◌, ℕ, IfOk, List, Ok, slice_get, option_map};
ghost use Rattle.sqlite.specs.Held.{state};
ghost use Rattle.sqlite.specs.State.{HasCleanDisk};
ghost use Rattle.sqlite.specs.Values.{bound};
ghost use Rattle.sqlite_value.specs.Order.{Row as SqlRow, column};
ghost use Rattle.table_meaning.specs.Formats.{columns_in};
ghost use Rattle.table_meaning.specs.Rows.{whole as sql_whole};
ghost use Rattle.table_meaning.specs.Reads.{Reads, Shows};

use crate::fields;
use crate::opening::OpenFault;
use sqlite::types::ValueRef;
use sqlite::{Alter, Connection, Error, ErrorCode, Row};
use std::alloc::Global;

/// The rows that a statement shows. What the connection shows is unchanged.
pub(crate) fn shown_by<S: Alter>(
    conn: &mut Connection<S>,
    text: &str,
    params: &[ValueRef<'_>],
) -> Result<Vec<Row>, Error>
    ensures reads { Reads (state S.Store conn.old) (state S.Store conn.new) }
    ensures shown { HasCleanDisk (state S.Store conn.new) → IfOk result (λ rows. Shows S.Store conn.old text.now (bound params.now) rows.items) }
{
    if !conn.is_autocommit() {
        return Err(Error::SqliteFailure(ErrorCode::TransactionState));
    }
    let mut tx = conn.transaction();
    let rows = tx.query_all(text, params)?;
    tx.rollback();
    Ok(rows)
}

/// The first row that a statement shows, read by `read`. What the connection shows is unchanged.
pub(crate) fn first_shown<S: Alter, T: Drop, F: FnOnce(Global, &Row) -> Result<T, OpenFault>>(
    alloc: Global,
    conn: &mut Connection<S>,
    text: &str,
    params: &[ValueRef<'_>],
    read: F,
) -> Result<Option<T>, OpenFault>
    requires { F.IsAlwaysCallable read }
    ensures reads { Reads (state S.Store conn.old) (state S.Store conn.new) }
    ensures first { (columns : T → SqlRow) (count : ℕ) → ((row : _) (x : T) → F.post read alloc row (Ok x) → columns x ≡ columns_in row.now count)
        → HasCleanDisk (state S.Store conn.new)
        → IfOk result (λ found. (rows : List SqlRow) × Shows S.Store conn.old text.now (bound params.now) rows × (option_map columns found ≡ option_map (λ row. columns_in row count) (slice_get rows 0))) }
{
    let rows = shown_by(conn, text, params)?;
    match rows.first() {
        Some(row) => Ok(Some(read(alloc, row)?)),
        None => Ok(None),
    }
}

/// The number in the first column of the first row that a statement shows. What the connection shows is unchanged.
pub(crate) fn first_number<S: Alter>(
    alloc: Global,
    conn: &mut Connection<S>,
    text: &str,
    params: &[ValueRef<'_>],
) -> Result<Option<u32>, OpenFault>
    ensures reads { Reads (state S.Store conn.old) (state S.Store conn.new) }
    ensures first { HasCleanDisk (state S.Store conn.new)
        → IfOk result (λ number. (rows : List SqlRow) × Shows S.Store conn.old text.now (bound params.now) rows × (option_map sql_whole number ≡ option_map (λ row. column row 0) (slice_get rows 0))) }
{
    let rows = shown_by(conn, text, params)?;
    match rows.first() {
        Some(row) => Ok(Some(fields::whole(alloc, row, 0)?)),
        None => Ok(None),
    }
}
