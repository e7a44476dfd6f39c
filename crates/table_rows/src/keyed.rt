//! Rows by their keys, rows by the front of their keys, or single columns of them. The tables are those that are not
//! read whole at each call.

ghost use Rattle.std.specs.Prelude.{◌≡◌, map, option_map, IfOk};
ghost use Rattle.sqlite.specs.Held.{state};
ghost use Rattle.sqlite.specs.State.{HasCleanDisk};
ghost use Rattle.table_meaning.specs.declared.rows.StoredRow.TheVariants as stored;
ghost use Rattle.table_meaning.specs.ByKey.{status_in, kept_rows};
ghost use Rattle.table_meaning.specs.Rows.{whole as sql_whole, unit_key, host_key, instance_key, batch_key, class_key, mark_key, columns_of, look_up};
ghost use Rattle.table_meaning.specs.Formats.{columns_in};
ghost use Rattle.table_meaning.specs.Reads.{Reads};
ghost use Rattle.table_meaning.specs.Holding.{AreKnown};

use crate::columns;
use crate::opening::OpenFault;
use crate::read::{first_number, first_shown, shown_by};
use crate::values::whole;
use sqlite::types::ValueRef;
use sqlite::{Alter, Connection, Row};
use std::alloc::Global;
use table_meaning::rows::{
    StoredBatch, StoredCall, StoredHost, StoredInstance, StoredUnit, StoredUnitMark,
    StoredVersionClass,
};
use texts::Listed;

/// The rows as kept calls.
fn calls(alloc: Global, rows: &[Row]) -> Result<Listed<StoredCall>, OpenFault>
    ensures { IfOk result (λ all. map (λ k. columns_of (stored.Kept k)) all ≡ map (λ row. columns_in row 5) rows.now) }
{
    let mut all = Listed::new(alloc);
    for row in rows {
        all.push(columns::call(alloc, row)?)?;
    }
    Ok(all)
}

/// Reads the kept calls of the host of this number. What the connection shows is unchanged.
pub fn kept_calls<S: Alter>(
    alloc: Global,
    conn: &mut Connection<S>,
    host: u32,
) -> Result<Listed<StoredCall>, OpenFault>
    ensures reads { Reads (state S.Store conn.old) (state S.Store conn.new) }
    ensures rows { HasCleanDisk (state S.Store conn.new) → AreKnown (state S.Store conn.old).now
        → IfOk result (λ rows. map (λ k. columns_of (stored.Kept k)) rows ≡ kept_rows (state S.Store conn.old).now.trees host) }
{
    let rows = shown_by(
        conn,
        "SELECT host_id, slot, seqno, text, reply FROM kept4 WHERE host_id = ?1 ORDER BY rowid",
        &[whole(host)],
    )?;
    calls(alloc, rows.as_slice())
}

/// Reads what is kept of the import of this kind and name. What the connection shows is unchanged.
pub fn batch_of<S: Alter>(
    alloc: Global,
    conn: &mut Connection<S>,
    kind: &str,
    name: &str,
) -> Result<Option<StoredBatch>, OpenFault>
    ensures reads { Reads (state S.Store conn.old) (state S.Store conn.new) }
    ensures row { HasCleanDisk (state S.Store conn.new) → AreKnown (state S.Store conn.old).now
        → IfOk result (λ row. option_map (λ b. columns_of (stored.Batch b)) row ≡ look_up (state S.Store conn.old).now.trees (batch_key kind.now name.now)) }
{
    first_shown(
        alloc,
        conn,
        "SELECT kind, name, text, answer FROM batch WHERE kind = ?1 AND name = ?2 ORDER BY rowid",
        &[
            ValueRef::Text(kind.as_bytes()),
            ValueRef::Text(name.as_bytes()),
        ],
        columns::batch,
    )
}

/// Reads the row of the workunit of this number. What the connection shows is unchanged.
pub fn unit_of<S: Alter>(
    alloc: Global,
    conn: &mut Connection<S>,
    unit: u32,
) -> Result<Option<StoredUnit>, OpenFault>
    ensures reads { Reads (state S.Store conn.old) (state S.Store conn.new) }
    ensures row { HasCleanDisk (state S.Store conn.new) → AreKnown (state S.Store conn.old).now
        → IfOk result (λ row. option_map (λ u. columns_of (stored.Unit u)) row ≡ look_up (state S.Store conn.old).now.trees (unit_key unit)) }
{
    first_shown(
        alloc,
        conn,
        "SELECT id, name, app_id, min_quorum, target_nresults, max_error_results, max_total_results, max_success_results, delay_bound, rsc_fpops_est, rsc_memory_bound, rsc_disk_bound, credit, status FROM unit WHERE id = ?1 ORDER BY id",
        &[whole(unit)],
        columns::unit,
    )
}

/// Reads the row of the host of this number. What the connection shows is unchanged.
pub fn host_of<S: Alter>(
    alloc: Global,
    conn: &mut Connection<S>,
    host: u32,
) -> Result<Option<StoredHost>, OpenFault>
    ensures reads { Reads (state S.Store conn.old) (state S.Store conn.new) }
    ensures row { HasCleanDisk (state S.Store conn.new) → AreKnown (state S.Store conn.old).now
        → IfOk result (λ row. option_map (λ h. columns_of (stored.Host h)) row ≡ look_up (state S.Store conn.old).now.trees (host_key host)) }
{
    first_shown(
        alloc,
        conn,
        "SELECT id, account_id, cpid, platforms, fpops, memory, disk, quota, held, credit FROM host WHERE id = ?1 ORDER BY id",
        &[whole(host)],
        columns::host,
    )
}

/// Reads the row of the instance of this workunit and number. What the connection shows is unchanged.
pub fn instance_of<S: Alter>(
    alloc: Global,
    conn: &mut Connection<S>,
    unit: u32,
    number: u32,
) -> Result<Option<StoredInstance>, OpenFault>
    ensures reads { Reads (state S.Store conn.old) (state S.Store conn.new) }
    ensures row { HasCleanDisk (state S.Store conn.new) → AreKnown (state S.Store conn.old).now
        → IfOk result (λ row. option_map (λ i. columns_of (stored.Instance i)) row ≡ look_up (state S.Store conn.old).now.trees (instance_key unit number)) }
{
    first_shown(
        alloc,
        conn,
        "SELECT unit_id, num, host_id, sent, deadline, lapse, outcome, output, place, queued FROM instance WHERE unit_id = ?1 AND num = ?2 ORDER BY rowid",
        &[whole(unit), whole(number)],
        columns::instance,
    )
}

/// Reads the row with the class of the version of this number. What the connection shows is unchanged.
pub fn class_of<S: Alter>(
    alloc: Global,
    conn: &mut Connection<S>,
    version: u32,
) -> Result<Option<StoredVersionClass>, OpenFault>
    ensures reads { Reads (state S.Store conn.old) (state S.Store conn.new) }
    ensures row { HasCleanDisk (state S.Store conn.new) → AreKnown (state S.Store conn.old).now
        → IfOk result (λ row. option_map (λ c. columns_of (stored.VersionClass c)) row ≡ look_up (state S.Store conn.old).now.trees (class_key version)) }
{
    first_shown(
        alloc,
        conn,
        "SELECT version_id, class FROM version_class WHERE version_id = ?1 ORDER BY version_id",
        &[whole(version)],
        columns::version_class,
    )
}

/// Reads the row with the mark of the workunit of this number. What the connection shows is unchanged.
pub fn mark_of<S: Alter>(
    alloc: Global,
    conn: &mut Connection<S>,
    unit: u32,
) -> Result<Option<StoredUnitMark>, OpenFault>
    ensures reads { Reads (state S.Store conn.old) (state S.Store conn.new) }
    ensures row { HasCleanDisk (state S.Store conn.new) → AreKnown (state S.Store conn.old).now
        → IfOk result (λ row. option_map (λ m. columns_of (stored.UnitMark m)) row ≡ look_up (state S.Store conn.old).now.trees (mark_key unit)) }
{
    first_shown(
        alloc,
        conn,
        "SELECT unit_id, marked, class FROM unit_mark WHERE unit_id = ?1 ORDER BY unit_id",
        &[whole(unit)],
        columns::unit_mark,
    )
}

/// Reads the number of the status from the row of the workunit at this place. What the connection shows is unchanged.
pub fn status_of<S: Alter>(
    alloc: Global,
    conn: &mut Connection<S>,
    unit: u32,
) -> Result<Option<u32>, OpenFault>
    ensures reads { Reads (state S.Store conn.old) (state S.Store conn.new) }
    ensures row { HasCleanDisk (state S.Store conn.new) → AreKnown (state S.Store conn.old).now
        → IfOk result (λ status. option_map sql_whole status ≡ option_map status_in (look_up (state S.Store conn.old).now.trees (unit_key unit))) }
{
    first_number(
        alloc,
        conn,
        "SELECT status FROM unit WHERE id = ?1 ORDER BY id",
        &[whole(unit)],
    )
}
