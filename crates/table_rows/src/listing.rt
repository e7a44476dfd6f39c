//! One column of the rows of a table that pass a test.

ghost use Rattle.std.specs.Prelude.{◌≡◌, map, IfOk};
ghost use Rattle.sqlite.specs.Held.{state};
ghost use Rattle.sqlite.specs.State.{HasCleanDisk};
ghost use Rattle.sqlite_value.specs.declared.value.Value.TheVariants.{Int as SqlInt};
ghost use Rattle.sqlite_value.specs.Order.{column};
ghost use Rattle.table_meaning.specs.declared.tables.TableName.TheVariants as named;
ghost use Rattle.table_meaning.specs.Rows.{whole as sql_whole};
ghost use Rattle.table_meaning.specs.Listings.{rows_where, is_of_user, credit_in, is_version_for};
ghost use Rattle.table_meaning.specs.Reads.{Reads};
ghost use Rattle.table_meaning.specs.Holding.{AreKnown};

use crate::fields::{self, int};
use crate::opening::OpenFault;
use crate::read::shown_by;
use crate::values::whole;
use sqlite::types::ValueRef;
use sqlite::{Alter, Connection, Row};
use std::alloc::Global;
use texts::Listed;

/// The integers in the first column of these rows.
fn integers(alloc: Global, rows: &[Row]) -> Result<Listed<i64>, OpenFault>
    ensures { IfOk result (λ all. map SqlInt all ≡ map (λ row. column row 0) rows.now) }
{
    let mut all = Listed::new(alloc);
    for row in rows {
        all.push(int(alloc, row, 0)?)?;
    }
    Ok(all)
}

/// The numbers in the first column of these rows.
fn numbers(alloc: Global, rows: &[Row]) -> Result<Listed<u32>, OpenFault>
    ensures { IfOk result (λ all. map sql_whole all ≡ map (λ row. column row 0) rows.now) }
{
    let mut all = Listed::new(alloc);
    for row in rows {
        all.push(fields::whole(alloc, row, 0)?)?;
    }
    Ok(all)
}

/// Reads the credits of the hosts of this account, in millicredits. What the connection shows is unchanged.
pub fn credits_of_user<S: Alter>(
    alloc: Global,
    conn: &mut Connection<S>,
    account: u32,
) -> Result<Listed<i64>, OpenFault>
    ensures reads { Reads (state S.Store conn.old) (state S.Store conn.new) }
    ensures credits { HasCleanDisk (state S.Store conn.new) → AreKnown (state S.Store conn.old).now
        → IfOk result (λ credits. map SqlInt credits ≡ map credit_in (rows_where (state S.Store conn.old).now.trees named.Host (is_of_user account))) }
{
    let rows = shown_by(
        conn,
        "SELECT credit FROM host WHERE id > 0 AND account_id = ?1 ORDER BY id",
        &[whole(account)],
    )?;
    integers(alloc, rows.as_slice())
}

/// Reads the numbers of the hosts of this account, in order. What the connection shows is unchanged.
pub fn hosts_of_user<S: Alter>(
    alloc: Global,
    conn: &mut Connection<S>,
    account: u32,
) -> Result<Listed<u32>, OpenFault>
    ensures reads { Reads (state S.Store conn.old) (state S.Store conn.new) }
    ensures hosts { HasCleanDisk (state S.Store conn.new) → AreKnown (state S.Store conn.old).now
        → IfOk result (λ hosts. map sql_whole hosts ≡ map (λ row. column row 0) (rows_where (state S.Store conn.old).now.trees named.Host (is_of_user account))) }
{
    let rows = shown_by(
        conn,
        "SELECT id FROM host WHERE id > 0 AND account_id = ?1 ORDER BY id",
        &[whole(account)],
    )?;
    numbers(alloc, rows.as_slice())
}

/// Reads the numbers of the versions of this application for this platform, in the order of their rows. What the
/// connection shows is unchanged.
pub fn version_numbers<S: Alter>(
    alloc: Global,
    conn: &mut Connection<S>,
    app: u32,
    platform: &str,
) -> Result<Listed<u32>, OpenFault>
    ensures reads { Reads (state S.Store conn.old) (state S.Store conn.new) }
    ensures numbers { HasCleanDisk (state S.Store conn.new) → AreKnown (state S.Store conn.old).now
        → IfOk result (λ numbers. map sql_whole numbers ≡ map (λ row. column row 3) (rows_where (state S.Store conn.old).now.trees named.Version (is_version_for app platform.now))) }
{
    let rows = shown_by(
        conn,
        "SELECT num FROM version WHERE id > 0 AND app_id = ?1 AND platform = ?2 ORDER BY id",
        &[whole(app), ValueRef::Text(platform.as_bytes())],
    )?;
    numbers(alloc, rows.as_slice())
}
