//! The rows of the marks of workunits that got a class in a call.

ghost use Rattle.std.specs.Prelude.{◌≡◌, IsTrue, IfOk, OnOk};
ghost use Rattle.std.specs.Option.{option_copied};
ghost use Rattle.sched_book.specs.Delta.{edited};
ghost use Rattle.sched_book.specs.declared.world.World.{World};
ghost use Rattle.call_working_set.specs.WorkingSets.{IsUnitStateAt, IsCallStateOf};
ghost use Rattle.table_worlds.specs.Changes.{IsChange};
ghost use Rattle.table_worlds.specs.Keys.{row_in};
ghost use Rattle.table_worlds.specs.declared.keys.WorldKey.TheVariants as key;
ghost use Rattle.table_changes.specs.Added.{is_mark_among, AreAdded};

use call_working_set::{CallState, UnitState};
use sched_book::{ClassRule, Unavailable};
use table_meaning::rows::{RowChange, StoredRow};
use table_worlds::mark_row;
use texts::Listed;

fn same_rule(left: &ClassRule, right: &ClassRule) -> bool
    ensures { IsTrue result → left.now ≡ right.now }
{
    left == right
}

/// The row of the mark of the workunit at a place, if its rule is not as before.
fn changed_mark(unit: u32, unit_state: Option<&UnitState>) -> Result<Option<RowChange>, Unavailable>
    ensures { (w v : World) → IsUnitStateAt w v unit (option_copied unit_state.entry)
        → IfOk result (IsChange (row_in w (key.Mark unit)) (row_in v (key.Mark unit))) }
{
    let Some(unit_state) = unit_state else {
        return Ok(None);
    };
    if same_rule(&unit_state.unit().class_rule, unit_state.rule()) {
        return Ok(None);
    }
    let row = mark_row(unit, unit_state.rule())?;
    Ok(Some(RowChange::update(StoredRow::UnitMark(row))))
}

/// Appends the rows of the marks of these workunits whose rule is not as before.
pub(crate) fn push_marks(
    call_state: &CallState,
    units: &[u32],
    rows: &mut Listed<RowChange>,
) -> Result<(), Unavailable>
    ensures { (w : World) → IsCallStateOf w call_state.now
        → OnOk result (AreAdded (is_mark_among units.now) w (edited w call_state.now.edits) rows.old rows.new) }
{
    for unit in units {
        rows.push_some(changed_mark(*unit, call_state.unit_state(*unit))?)?;
    }
    Ok(())
}
