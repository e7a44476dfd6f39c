//! The rows of instances that a call changed, or whose workunit it opened or closed.

ghost use Rattle.std.specs.Prelude.{◌≡◌, ◌&&◌, [], ◌∷◌, is_none, IsTrue, IfOk, OnOk};
ghost use Rattle.std.specs.Option.{option_copied};
ghost use Rattle.sched_book.specs.Count as spec;
ghost use Rattle.sched_book.specs.Count.{is_open};
ghost use Rattle.sched_book.specs.Delta.{edited};
ghost use Rattle.sched_book.specs.declared.world.World.{World};
ghost use Rattle.call_working_set.specs.WorkingSets.{IsUnitStateOf, IsUnitStateAt, IsCallStateOf};
ghost use Rattle.table_worlds.specs.Changes.{IsChange};
ghost use Rattle.table_worlds.specs.Keys.{row_in};
ghost use Rattle.table_worlds.specs.declared.keys.WorldKey.TheVariants as key;
ghost use Rattle.table_changes.specs.Added.{is_instance_among, AreAdded};

use crate::units::present_status;
use call_working_set::{CallState, UnitState};
use sched_book::{Cause, Instance, Invariant, Place, Status, Unavailable};
use table_meaning::rows::{RowChange, StoredRow};
use table_worlds::instance_row;
use texts::Listed;

/// The statuses of a workunit: before a call, and now.
#[derive(Clone, Copy)]
struct Statuses {
    before: Status,
    present: Status,
}

/// Whether the row of an instance is as before: the instance is, and it was given to a host or its workunit is as open
/// as before.
fn has_same_row(before: &Instance, present: &Instance, statuses: Statuses) -> bool
    ensures instance { IsTrue result → before.now ≡ present.now }
    ensures queued { IsTrue result → (is_none present.now.owner && is_open statuses.before) ≡ (is_none present.now.owner && is_open statuses.present) }
{
    before == present
        && (present.owner.is_some() || statuses.before.is_open() == statuses.present.is_open())
}

/// The row of the instance at a place of a unit state, if it is not as before.
fn changed_instance(
    unit_state: &UnitState,
    statuses: Statuses,
    place: Place,
) -> Result<Option<RowChange>, Unavailable>
    ensures { (w v : World) → v.apps ≡ w.apps → IsUnitStateOf w v place.unit unit_state.now
        → statuses.before ≡ spec.status unit_state.now.agreement unit_state.now.unit unit_state.now.before
        → statuses.present ≡ spec.status unit_state.now.agreement unit_state.now.unit unit_state.now.present
        → IfOk result (IsChange (row_in w (key.Instance place)) (row_in v (key.Instance place))) }
{
    let number = place.number as usize;
    let Some(instance) = unit_state.present().get(number) else {
        return Ok(None);
    };
    let Some(before) = unit_state.before().get(number) else {
        let row = instance_row(place, instance, statuses.present)?;
        return Ok(Some(RowChange::insert(StoredRow::Instance(row))));
    };
    if has_same_row(before, instance, statuses) {
        return Ok(None);
    }
    let row = instance_row(place, instance, statuses.present)?;
    Ok(Some(RowChange::update(StoredRow::Instance(row))))
}

/// Appends the rows of the workunit's instances that are not as before, if the call read the workunit.
fn push_instances_of(
    unit: u32,
    unit_state: Option<&UnitState>,
    rows: &mut Listed<RowChange>,
) -> Result<(), Unavailable>
    ensures { (w v : World) → v.apps ≡ w.apps → IsUnitStateAt w v unit (option_copied unit_state.entry)
        → OnOk result (AreAdded (is_instance_among (unit ∷ [])) w v rows.old rows.new) }
{
    let Some(read) = unit_state else {
        return Ok(());
    };
    let statuses = Statuses {
        before: read.status_before(),
        present: present_status(read),
    };
    let count = u32::try_from(read.present().len()).map_err(|_| Unavailable(Cause::Broken(
        Invariant::InstancesToPut,
    )))?;
    for number in 0..count {
        rows.push_some(changed_instance(read, statuses, Place { unit, number })?)?;
    }
    Ok(())
}

/// Appends the rows of the instances of these workunits that are not as before.
pub(crate) fn push_instances(
    call_state: &CallState,
    units: &[u32],
    rows: &mut Listed<RowChange>,
) -> Result<(), Unavailable>
    ensures { (w : World) → IsCallStateOf w call_state.now
        → OnOk result (AreAdded (is_instance_among units.now) w (edited w call_state.now.edits) rows.old rows.new) }
{
    for unit in units {
        push_instances_of(*unit, call_state.unit_state(*unit), rows)?;
    }
    Ok(())
}
