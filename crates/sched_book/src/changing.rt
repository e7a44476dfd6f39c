//! Making changes to a world.

ghost use Rattle.std.specs.Prelude.{◌≡◌, IfOk, OnOk};
ghost use Rattle.sched_book.specs.Delta.{set_at, set_nth, with_instance, edited_one, edited, applied};
ghost use Rattle.sched_book.specs.Imports.{with_rows};
ghost use Rattle.sched_book.specs.Classes.{with_class};
ghost use Rattle.sched_book.specs.Reports.{modify_nth};

use crate::by_place::copy_of;
use crate::delta::{Delta, Edit, changed_book, classed_book, new_books};
use crate::instance::{Instance, Place, UnitBook};
use crate::rows::Rows;
use crate::world::World;
use std::alloc::Global;
use texts::{Listed, Memory, Text};

/// Puts a row at an index: it replaces the row there, or follows the others.
pub(crate) fn put<T: Drop>(rows: &mut Listed<T>, index: usize, row: T) -> Result<(), Memory>
    ensures { OnOk result (rows.new ≡ set_at rows.old index row) }
{
    if index < rows.len() {
        rows.replace(index, row);
        return Ok(());
    }
    rows.push(row)
}

/// The same, with places that count from 1; at place 0 nothing changes.
fn set_nth<T: Drop>(rows: &mut Listed<T>, place: u32, row: T) -> Result<(), Memory>
    ensures { OnOk result (rows.new ≡ set_nth rows.old place row) }
{
    if place == 0 {
        return Ok(());
    }
    put(rows, place as usize - 1, row)
}

/// Puts an instance at a place. If there is no such workunit, nothing changes.
#[tactic(auto, using(crate::proofs::Changes::changed_nth_steps))]
fn put_instance(books: &mut Listed<UnitBook>, place: Place, row: Instance) -> Result<(), Memory>
    ensures { OnOk result (books.new ≡ modify_nth (with_instance place.number row) books.old place.unit) }
{
    if place.unit == 0 {
        return Ok(());
    }
    let index = place.unit as usize - 1;
    if index >= books.len() {
        return Ok(());
    }
    let book = changed_book(&books.as_slice()[index], place.number, row)?;
    books.replace(index, book);
    Ok(())
}

/// Grants a version of a class for the workunit at a place. If there is no workunit, nothing changes.
#[tactic(auto, using(crate::proofs::Changes::changed_nth_steps))]
fn put_class(books: &mut Listed<UnitBook>, unit: u32, class: &Text) -> Result<(), Memory>
    ensures { OnOk result (books.new ≡ modify_nth (with_class class.now) books.old unit) }
{
    if unit == 0 {
        return Ok(());
    }
    let index = unit as usize - 1;
    if index >= books.len() {
        return Ok(());
    }
    let book = classed_book(&books.as_slice()[index], class)?;
    books.replace(index, book);
    Ok(())
}

/// Makes one edit.
fn make(world: &mut World, edit: &Edit) -> Result<(), Memory>
    ensures { OnOk result (world.new ≡ edited_one world.old edit.now) }
{
    match edit {
        Edit::Host { number, row } => set_nth(&mut world.hosts, *number, copy_of(row)?),
        Edit::Instance { place, row } => put_instance(&mut world.units, *place, copy_of(row)?),
        Edit::Class { unit, class } => put_class(&mut world.units, *unit, class),
    }
}

/// Makes edits in turn.
fn make_all(world: &mut World, edits: &[Edit]) -> Result<(), Memory>
    ensures { OnOk result (world.new ≡ edited world.old edits.now) }
{
    for edit in edits {
        make(world, edit)?;
    }
    Ok(())
}

/// Appends copies of rows. A workunit comes with its first instances.
fn add_rows(alloc: Global, world: &mut World, rows: &Rows) -> Result<(), Memory>
    ensures { OnOk result (world.new ≡ with_rows world.old rows.now) }
{
    match rows {
        Rows::Accounts(accounts) => world.accounts.append(accounts.clone()?)?,
        Rows::Apps(apps) => world.apps.append(apps.clone()?)?,
        Rows::Versions(versions) => world.versions.append(versions.clone()?)?,
        Rows::Workunits(units) => world.units.append(new_books(alloc, units.as_slice())?)?,
    }
    Ok(())
}

/// Returns a copy of a world with these changes made.
pub(crate) fn changed(alloc: Global, world: &World, delta: &Delta) -> Result<World, Memory>
    ensures { IfOk result (λ changed. changed ≡ applied world.now delta.now) }
{
    let mut changed = copy_of(world)?;
    match delta {
        Delta::Rows(rows) => add_rows(alloc, &mut changed, rows)?,
        Delta::Edits(edits) => make_all(&mut changed, edits.as_slice())?,
    }
    Ok(changed)
}
