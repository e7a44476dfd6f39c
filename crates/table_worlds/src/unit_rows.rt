//! The rows of one workunit.

ghost use Rattle.std.specs.Prelude.{◌≡◌, ◌-◌, IfOk};
ghost use Rattle.std.specs.Bool.{Decides};
ghost use Rattle.sched_book.specs.Numbered.{map_from};
ghost use Rattle.sched_book.specs.Places.{status_of};
ghost use Rattle.sched_book.specs.declared.instance.UnitBook.{UnitBook};
ghost use Rattle.sched_book.specs.declared.world.World.{World};
ghost use Rattle.table_meaning.specs.Worlds.{unit_row, mark_row, instance_row};
ghost use Rattle.table_worlds.specs.RowsOf.{rows_of_unit};

use crate::rows::{app_place, instance_row, mark_row, status_of, unit_row};
use sched_book::{
    Cause, ClassRule, Instance, Invariant, Place, Status, Unavailable, UnitBook, World,
};
use table_meaning::rows::{StoredInstance, StoredUnit, StoredUnitMark};
use texts::Listed;

/// The rows of a workunit, of its mark, and of its instances in their order, as they were read.
#[derive(Drop)]
pub struct UnitRows {
    pub unit: StoredUnit,
    pub mark: StoredUnitMark,
    pub instances: Listed<StoredInstance>,
}

/// Whether the row is that of an instance of a workunit with this status.
fn is_row_of(
    place: Place,
    instance: &Instance,
    status: Status,
    row: &StoredInstance,
) -> Result<bool, Unavailable>
    ensures { (w : World) (b : UnitBook) → status ≡ status_of w b
        → IfOk result (λ same. Decides same (row.now ≡ instance_row w b place.unit place.number instance.now)) }
{
    let own = instance_row(place, instance, status)?;
    Ok(*row == own)
}

/// Whether these are the rows of the instances of a workunit with this status.
fn are_instance_rows(
    unit: u32,
    status: Status,
    instances: &[Instance],
    rows: &[StoredInstance],
) -> Result<bool, Unavailable>
    ensures { (w : World) (b : UnitBook) → status ≡ status_of w b
        → IfOk result (λ same. Decides same (rows.now ≡ map_from 1 (λ n x. instance_row w b unit (n - 1) x) instances.now)) }
{
    if instances.len() != rows.len() {
        return Ok(false);
    }
    for (index, instance) in instances.iter().enumerate() {
        let number = u32::try_from(index).map_err(|_| Unavailable(Cause::Broken(
            Invariant::NumberOfInstance,
        )))?;
        if !is_row_of(Place { unit, number }, instance, status, &rows[index])? {
            return Ok(false);
        }
    }
    Ok(true)
}

/// Whether the row is that of a workunit with this number and this status.
fn is_row_of_unit(
    world: &World,
    id: u32,
    book: &UnitBook,
    status: Status,
    row: &StoredUnit,
) -> Result<bool, Unavailable>
    ensures { status ≡ status_of world.now book.now → IfOk result (λ same. Decides same (row.now ≡ unit_row world.now id book.now)) }
{
    let app = app_place(world, book.unit.app.as_str())?;
    let own = unit_row(id, app, &book.unit, status)?;
    Ok(*row == own)
}

/// Whether the row is that of the mark of a workunit with this number and this rule.
fn is_row_of_mark(id: u32, rule: &ClassRule, row: &StoredUnitMark) -> Result<bool, Unavailable>
    ensures { (b : UnitBook) → b.unit.class_rule ≡ rule.now → IfOk result (λ same. Decides same (row.now ≡ mark_row id b)) }
{
    let own = mark_row(id, rule)?;
    Ok(*row == own)
}

/// Whether these are the rows of a workunit of this number, of its mark and of its instances, for the applications of
/// this world. `Unavailable` if out of memory, or if a table can't hold a number of it.
pub fn are_unit_rows(
    world: &World,
    id: u32,
    book: &UnitBook,
    rows: &UnitRows,
) -> Result<bool, Unavailable>
    ensures { IfOk result (λ same. Decides same (rows.now ≡ rows_of_unit world.now id book.now)) }
{
    let status = status_of(world, book)?;
    let unit = is_row_of_unit(world, id, book, status, &rows.unit)?;
    let mark = is_row_of_mark(id, &book.unit.class_rule, &rows.mark)?;
    let instances = are_instance_rows(
        id,
        status,
        book.instances.as_slice(),
        rows.instances.as_slice(),
    )?;
    Ok(unit && mark && instances)
}
