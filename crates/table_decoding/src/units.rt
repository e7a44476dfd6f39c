//! A workunit with its instances, from its rows.

ghost use Rattle.std.specs.Prelude.{◌≡◌, ℕ, IsTrue, IfOk};
ghost use Rattle.sched_book.specs.Imports.{has_app};
ghost use Rattle.sched_book.specs.Limits.{IsUnitInLimits};
ghost use Rattle.sched_book.specs.Sound.{IsSoundUnit};
ghost use Rattle.sched_book.specs.declared.instance.UnitBook.{UnitBook};
ghost use Rattle.sched_book.specs.declared.world.World.{World};
ghost use Rattle.table_meaning.specs.Rows.{columns_of};
ghost use Rattle.table_meaning.specs.Worlds.{unit_row, mark_row};
ghost use Rattle.table_meaning.specs.declared.rows.StoredRow.TheVariants as stored;
ghost use Rattle.table_worlds.specs.ReadBack.{rule_in, unit_in};
ghost use Rattle.table_worlds.specs.RowsOf.{rows_of_unit};
ghost use Rattle.table_decoding.specs.Decoding.{Gives};

use crate::fault::RowFault;
use crate::instances::instances;
use crate::rows::{amount, app_name};
use sched_book::{App, ClassRule, UnitBook, Workunit};
use std::alloc::Global;
use table_meaning::rows::{StoredUnit, StoredUnitMark};
use table_worlds::UnitRows;
use world_soundness::in_limits::is_unit_in_limits;

/// The rule of a mark. A workunit that is not marked has no class.
fn rule(mark: &StoredUnitMark) -> Result<ClassRule, RowFault>
    ensures given { (id : ℕ) (b : UnitBook) → mark.now ≡ mark_row id b → Gives result b.unit.class_rule }
    ensures read { IfOk result (λ rule. rule ≡ rule_in (columns_of (stored.UnitMark mark.now))) }
{
    match (mark.marked, &mark.class) {
        (false, None) => Ok(ClassRule::Any),
        (false, Some(_)) => Err(RowFault::BadRow),
        (true, None) => Ok(ClassRule::OfFirst),
        (true, Some(class)) => Ok(ClassRule::Only(class.clone()?)),
    }
}

/// The workunit of a row and of its mark, for these applications. `BadRow` if a value is out of range.
pub fn workunit(apps: &[App], row: &StoredUnit, mark: &StoredUnitMark) -> Result<Workunit, RowFault>
    ensures given { (w : World) (id : ℕ) (b : UnitBook) → apps.now ≡ w.apps → IsTrue (has_app w.apps b.unit.app) → IsUnitInLimits b.unit → row.now ≡ unit_row w id b
        → mark.now ≡ mark_row id b → Gives result b.unit }
    ensures read { IfOk result (λ unit. unit ≡ unit_in apps.now (columns_of (stored.Unit row.now)) (columns_of (stored.UnitMark mark.now))) }
    ensures limits { IfOk result IsUnitInLimits }
{
    let unit = Workunit {
        min_quorum: row.min_quorum,
        target_nresults: row.target_nresults,
        max_error_results: row.max_error_results,
        max_total_results: row.max_total_results,
        max_success_results: row.max_success_results,
        delay_bound: row.delay_bound,
        rsc_fpops_est: amount(row.rsc_fpops_est)?,
        rsc_memory_bound: amount(row.rsc_memory_bound)?,
        rsc_disk_bound: amount(row.rsc_disk_bound)?,
        credit: row.credit,
        name: row.name.clone()?,
        app: app_name(apps, row.app_id)?,
        class_rule: rule(mark)?,
    };
    if !is_unit_in_limits(&unit) {
        return Err(RowFault::BadRow);
    }
    Ok(unit)
}

/// The workunit of these rows with its instances, for these applications.
pub fn unit_book(alloc: Global, apps: &[App], rows: &UnitRows) -> Result<UnitBook, RowFault>
    ensures { (w : World) (id : ℕ) (b : UnitBook) → apps.now ≡ w.apps → IsSoundUnit w.hosts w.apps b → rows.now ≡ rows_of_unit w id b → Gives result b }
{
    Ok(UnitBook {
        unit: workunit(apps, &rows.unit, &rows.mark)?,
        instances: instances(alloc, rows.instances.as_slice())?,
    })
}
