//! Rows by their names, and the greatest number of a table.

ghost use Rattle.std.specs.Prelude.{◌≡◌, true, slice_get, option_map, IfOk};
ghost use Rattle.sqlite.specs.Held.{state};
ghost use Rattle.sqlite.specs.State.{HasCleanDisk};
ghost use Rattle.sqlite_value.specs.Order.{column};
ghost use Rattle.table_meaning.specs.declared.rows.StoredRow.TheVariants as stored;
ghost use Rattle.table_meaning.specs.declared.tables.TableName.TheVariants as named;
ghost use Rattle.table_meaning.specs.Rows.{whole as sql_whole, columns_of};
ghost use Rattle.table_meaning.specs.Listings.{rows_where, has_text, is_host_known, is_version_known, last_number_in};
ghost use Rattle.table_meaning.specs.Reads.{Reads};
ghost use Rattle.table_meaning.specs.Holding.{AreKnown};
ghost use Rattle.table_rows.specs.Counted.{counted_table, last_text as sql_last};

use crate::columns;
use crate::opening::OpenFault;
use crate::read::{first_number, first_shown};
use crate::values::whole;
use sqlite::types::ValueRef;
use sqlite::{Alter, Connection};
use std::alloc::Global;
use table_meaning::rows::StoredAccount;

/// Reads the first account with this authenticator. What the connection shows is unchanged.
pub fn account_with<S: Alter>(
    alloc: Global,
    conn: &mut Connection<S>,
    authenticator: &str,
) -> Result<Option<StoredAccount>, OpenFault>
    ensures reads { Reads (state S.Store conn.old) (state S.Store conn.new) }
    ensures first { HasCleanDisk (state S.Store conn.new) → AreKnown (state S.Store conn.old).now
        → IfOk result (λ row. option_map (λ a. columns_of (stored.Account a)) row ≡ slice_get (rows_where (state S.Store conn.old).now.trees named.Account (has_text 1 authenticator.now)) 0) }
{
    first_shown(
        alloc,
        conn,
        "SELECT id, auth, name FROM account WHERE id > 0 AND auth = ?1 ORDER BY id",
        &[ValueRef::Text(authenticator.as_bytes())],
        columns::account,
    )
}

/// Reads the number of the first workunit of this name. What the connection shows is unchanged.
pub fn unit_named<S: Alter>(
    alloc: Global,
    conn: &mut Connection<S>,
    name: &str,
) -> Result<Option<u32>, OpenFault>
    ensures reads { Reads (state S.Store conn.old) (state S.Store conn.new) }
    ensures first { HasCleanDisk (state S.Store conn.new) → AreKnown (state S.Store conn.old).now
        → IfOk result (λ unit. option_map sql_whole unit ≡ option_map (λ row. column row 0) (slice_get (rows_where (state S.Store conn.old).now.trees named.Unit (has_text 1 name.now)) 0)) }
{
    first_number(
        alloc,
        conn,
        "SELECT id FROM unit WHERE id > 0 AND name = ?1 ORDER BY id",
        &[ValueRef::Text(name.as_bytes())],
    )
}

/// Reads the number of the first host of this account with this cross-project identifier. What the connection shows is
/// unchanged.
pub fn host_known<S: Alter>(
    alloc: Global,
    conn: &mut Connection<S>,
    account: u32,
    cpid: &str,
) -> Result<Option<u32>, OpenFault>
    ensures reads { Reads (state S.Store conn.old) (state S.Store conn.new) }
    ensures first { HasCleanDisk (state S.Store conn.new) → AreKnown (state S.Store conn.old).now
        → IfOk result (λ host. option_map sql_whole host ≡ option_map (λ row. column row 0) (slice_get (rows_where (state S.Store conn.old).now.trees named.Host (is_host_known account cpid.now)) 0)) }
{
    first_number(
        alloc,
        conn,
        "SELECT id FROM host WHERE id > 0 AND account_id = ?1 AND cpid = ?2 ORDER BY id",
        &[whole(account), ValueRef::Text(cpid.as_bytes())],
    )
}

/// Reads the row number of the first version of this application for this platform with this version number. What the
/// connection shows is unchanged.
pub fn version_known<S: Alter>(
    alloc: Global,
    conn: &mut Connection<S>,
    app: u32,
    platform: &str,
    num: u32,
) -> Result<Option<u32>, OpenFault>
    ensures reads { Reads (state S.Store conn.old) (state S.Store conn.new) }
    ensures first { HasCleanDisk (state S.Store conn.new) → AreKnown (state S.Store conn.old).now
        → IfOk result (λ version. option_map sql_whole version ≡ option_map (λ row. column row 0) (slice_get (rows_where (state S.Store conn.old).now.trees named.Version (is_version_known app platform.now num)) 0)) }
{
    first_number(
        alloc,
        conn,
        "SELECT id FROM version WHERE id > 0 AND app_id = ?1 AND platform = ?2 AND num = ?3 ORDER BY id",
        &[whole(app), ValueRef::Text(platform.as_bytes()), whole(num)],
    )
}

/// The tables whose rows count from 1, so the last number is the number of rows.
#[derive(Clone, Copy)]
pub enum CountedTable {
    Account,
    App,
    Version,
    Unit,
    Host,
}

/// The statement that reads the number of the last row.
fn last_text(table: CountedTable) -> &'static str
    ensures { result.now ≡ sql_last table }
{
    match table {
        CountedTable::Account => "SELECT id FROM account WHERE id > 0 ORDER BY id DESC LIMIT 1",
        CountedTable::App => "SELECT id FROM app WHERE id > 0 ORDER BY id DESC LIMIT 1",
        CountedTable::Version => "SELECT id FROM version WHERE id > 0 ORDER BY id DESC LIMIT 1",
        CountedTable::Unit => "SELECT id FROM unit WHERE id > 0 ORDER BY id DESC LIMIT 1",
        CountedTable::Host => "SELECT id FROM host WHERE id > 0 ORDER BY id DESC LIMIT 1",
    }
}

/// Reads the greatest number that a row of the table has, or 0 if no row has one above 0. What the connection shows is
/// unchanged.
pub fn last_number<S: Alter>(
    alloc: Global,
    conn: &mut Connection<S>,
    table: CountedTable,
) -> Result<u32, OpenFault>
    ensures reads { Reads (state S.Store conn.old) (state S.Store conn.new) }
    ensures last { HasCleanDisk (state S.Store conn.new) → AreKnown (state S.Store conn.old).now
        → IfOk result (λ number. sql_whole number ≡ last_number_in (rows_where (state S.Store conn.old).now.trees (counted_table table) (λ row. true))) }
{
    let last = first_number(alloc, conn, last_text(table), &[])?;
    Ok(last.unwrap_or(0))
}
