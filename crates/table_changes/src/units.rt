//! The rows of workunits whose status a call changed.

ghost use Rattle.std.specs.Prelude.{◌≡◌, IfOk, OnOk};
ghost use Rattle.std.specs.Option.{option_copied};
ghost use Rattle.sched_book.specs.Count as spec;
ghost use Rattle.sched_book.specs.Delta.{edited};
ghost use Rattle.sched_book.specs.Trusted.{Trusted};
ghost use Rattle.sched_book.specs.declared.world.World.{World};
ghost use Rattle.call_working_set.specs.WorkingSets.{IsUnitStateAt, IsCallStateOf};
ghost use Rattle.table_worlds.specs.Changes.{IsChange};
ghost use Rattle.table_worlds.specs.Keys.{row_in};
ghost use Rattle.table_worlds.specs.declared.keys.WorldKey.TheVariants as key;
ghost use Rattle.table_changes.specs.Added.{is_unit_among, AreAdded};

use crate::applications::known_app;
use call_working_set::{CallState, UnitState};
use sched_book::{Desk, Status, Unavailable};
use std::alloc::Global;
use table_meaning::rows::{RowChange, StoredRow};
use table_worlds::unit_row;
use texts::Listed;

/// The workunit's status now.
pub(crate) fn present_status(unit_state: &UnitState) -> Status
    ensures { result ≡ spec.status unit_state.now.agreement unit_state.now.unit unit_state.now.present }
{
    unit_state.decided_now().status
}

/// The row of the workunit at a place, if its status is not as before.
fn changed_unit<D: Desk>(
    alloc: Global,
    desk: &mut D,
    unit: u32,
    unit_state: Option<&UnitState>,
) -> Result<Option<RowChange>, Unavailable>
    ensures reads { D.reads desk.old desk.new }
    ensures row { Trusted D.Units desk.old desk.new ((after : World) → after.apps ≡ (D.world desk.old).apps
        → IsUnitStateAt (D.world desk.old) after unit (option_copied unit_state.entry)
        → IfOk result (IsChange (row_in (D.world desk.old) (key.Unit unit)) (row_in after (key.Unit unit)))) }
{
    let Some(unit_state) = unit_state else {
        return Ok(None);
    };
    let status = present_status(unit_state);
    if status == unit_state.status_before() {
        return Ok(None);
    }
    let app = known_app(alloc, desk, unit_state.unit().app.as_str())?;
    let row = unit_row(unit, app.place, unit_state.unit(), status)?;
    Ok(Some(RowChange::update(StoredRow::Unit(row))))
}

/// Appends the rows of these workunits whose status is not as before.
pub(crate) fn push_units<D: Desk>(
    alloc: Global,
    desk: &mut D,
    call_state: &CallState,
    units: &[u32],
    rows: &mut Listed<RowChange>,
) -> Result<(), Unavailable>
    ensures reads { D.reads desk.old desk.new }
    ensures rows { Trusted D.Units desk.old desk.new (IsCallStateOf (D.world desk.old) call_state.now →
        OnOk result (AreAdded (is_unit_among units.now) (D.world desk.old) (edited (D.world desk.old) call_state.now.edits) rows.old rows.new)) }
{
    for unit in units {
        rows.push_some(changed_unit(alloc, desk, *unit, call_state.unit_state(*unit))?)?;
    }
    Ok(())
}
