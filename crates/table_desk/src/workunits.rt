//! Workunits and their instances, by their keys.

ghost use Rattle.std.specs.Prelude.{◌≡◌, ◌≤◌, length, map, All, IfOk, IfSome};
ghost use Rattle.sqlite.specs.Held.{state};
ghost use Rattle.sched_book.specs.Desk.{instances_at as instances_within, workunit_at};
ghost use Rattle.sched_book.specs.Limits.{most_instances, IsUnitInLimits, IsInstanceInLimits};
ghost use Rattle.sched_book.specs.Places.{unit_named, instance_at as job_at};
ghost use Rattle.table_meaning.specs.Reads.{Reads};
ghost use Rattle.table_meaning.specs.Rows.{columns_of};
ghost use Rattle.table_meaning.specs.declared.rows.StoredRow.TheVariants as stored;
ghost use Rattle.table_worlds.specs.ReadBack.{job_in};
ghost use Rattle.table_desk.specs.Asked.{LooksUp};

use sched_book::limits::MOST_INSTANCES;
use sched_book::{App, Cause, Instance, Invariant, Unavailable, Workunit};
use sqlite::{Alter, Connection};
use std::alloc::Global;
use table_decoding::{instance, workunit};
use table_meaning::rows::StoredInstance;
use table_rows::{instance_of, instances_in, mark_of, unit_named, unit_of};
use texts::Listed;

/// The place of the workunit of this name. What the connection shows is unchanged.
pub fn unit_by_name<S: Alter>(
    alloc: Global,
    conn: &mut Connection<S>,
    name: &str,
) -> Result<Option<u32>, Unavailable>
    ensures reads { Reads (state S.Store conn.old) (state S.Store conn.new) }
    ensures answer { LooksUp S.Store conn.old conn.new (λ w. IfOk result (λ r. r ≡ unit_named w name.now)) }
{
    Ok(unit_named(alloc, conn, name)?)
}

/// The workunit at this place. `apps` are all applications. For any rows, it is unavailable if the workunit has no
/// mark, or if its row or mark has a value out of its range. What the connection shows is unchanged.
pub fn unit_at<S: Alter>(
    alloc: Global,
    conn: &mut Connection<S>,
    apps: &[App],
    unit: u32,
) -> Result<Option<Workunit>, Unavailable>
    ensures reads { Reads (state S.Store conn.old) (state S.Store conn.new) }
    ensures answer { LooksUp S.Store conn.old conn.new (λ w. apps.now ≡ w.apps → IfOk result (λ r. r ≡ workunit_at w unit)) }
    ensures limits { IfOk result (λ r. IfSome r IsUnitInLimits) }
{
    let Some(row) = unit_of(alloc, conn, unit)? else {
        return Ok(None);
    };
    let Some(mark) = mark_of(alloc, conn, unit)? else {
        return Err(Unavailable(Cause::Broken(Invariant::MarkOfUnit)));
    };
    Ok(Some(workunit(apps, &row, &mark)?))
}

/// The instance of this number of the workunit at this place. For any rows, it is unavailable if the row has a value
/// out of its range. What the connection shows is unchanged.
pub fn instance_at<S: Alter>(
    alloc: Global,
    conn: &mut Connection<S>,
    unit: u32,
    number: u32,
) -> Result<Option<Instance>, Unavailable>
    ensures reads { Reads (state S.Store conn.old) (state S.Store conn.new) }
    ensures answer { LooksUp S.Store conn.old conn.new (λ w. IfOk result (λ r. r ≡ job_at w (record { unit = unit; number = number }))) }
    ensures limits { IfOk result (λ r. IfSome r IsInstanceInLimits) }
{
    match instance_of(alloc, conn, unit, number)? {
        None => Ok(None),
        Some(row) => Ok(Some(instance(&row)?)),
    }
}

/// The instances of these rows.
fn instances(alloc: Global, rows: &[StoredInstance]) -> Result<Listed<Instance>, Unavailable>
    ensures all { IfOk result (λ all. all ≡ map (λ row. job_in (columns_of (stored.Instance row))) rows.now) }
    ensures limits { IfOk result (λ all. All IsInstanceInLimits all) }
{
    let mut all = Listed::new(alloc);
    for row in rows {
        all.push(instance(row)?)?;
    }
    Ok(all)
}

/// The instances of the workunit at this place, by number. For any rows, it is unavailable if there are more than a
/// workunit may have, or if one has a value out of its range. What the connection shows is unchanged.
pub fn instances_at<S: Alter>(
    alloc: Global,
    conn: &mut Connection<S>,
    unit: u32,
) -> Result<Listed<Instance>, Unavailable>
    ensures reads { Reads (state S.Store conn.old) (state S.Store conn.new) }
    ensures few { IfOk result (λ r. length r ≤ most_instances) }
    ensures limits { IfOk result (λ r. All IsInstanceInLimits r) }
    ensures answer { LooksUp S.Store conn.old conn.new (λ w. IfOk result (λ r. r ≡ instances_within w unit)) }
{
    let rows = instances_in(alloc, conn, unit)?;
    if rows.len() > MOST_INSTANCES {
        return Err(Unavailable(Cause::Broken(Invariant::ReadInstances)));
    }
    instances(alloc, rows.as_slice())
}
