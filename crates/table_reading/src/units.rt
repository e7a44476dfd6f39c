//! Reads workunits with their marks and their instances by their keys, and tests one workunit at a time.

ghost use Rattle.std.specs.Prelude.{◌≡◌, ◌<◌, ℕ, false, ◌||◌, ◌⊎◌, List, length, Some, None, IsTrue, IfOk, IfErr, OnOk};
ghost use Rattle.std.specs.Str.{bytes_eq};
ghost use Rattle.sqlite.specs.Held.{state};
ghost use Rattle.sqlite.specs.State.{HasCleanDisk};
ghost use Rattle.sched_book.specs.Numbered.{map_from};
ghost use Rattle.sched_book.specs.Sound.{IsSoundUnit};
ghost use Rattle.sched_book.specs.declared.instance.UnitBook.{UnitBook as Book};
ghost use Rattle.table_meaning.specs.Holding.{AreKnown};
ghost use Rattle.table_meaning.specs.Reads.{Reads};
ghost use Rattle.table_meaning.specs.Rows.{unit_key, mark_key, instance_key, columns_of, look_up};
ghost use Rattle.table_meaning.specs.declared.rows.StoredRow.TheVariants as stored;
ghost use Rattle.table_worlds.specs.RowsOf.{rows_of_unit};
ghost use Rattle.table_worlds.specs.Totals.{with_unit, with_units};
ghost use Rattle.table_reading.specs.Deadlines.{lowered_to_each, lowered_to_units};
ghost use Rattle.table_reading.specs.Reading.{WereKnown};
ghost use Rattle.table_reading.specs.Testing.{AreInstancesFound, AreFound, LacksRow, HasGap, PassesAt, AreTested, has_name};

use crate::due::lowered_to_each;
use sched_book::{Cause, Invariant, UnitBook, World};
use sqlite::{Alter, Connection};
use std::alloc::Global;
use table_decoding::{RowFault, unit_book};
use table_meaning::rows::{StoredInstance, StoredUnit, StoredUnitMark};
use table_rows::{OpenFault, instance_of, mark_of, unit_of};
use table_worlds::{Total, UnitRows, are_unit_rows, count_unit};
use texts::{Listed, SeenSet, Text};
use world_soundness::is_sound_unit;

/// Reads the row of the workunit of a number. `BadRow` if it does not exist.
fn standing_unit<S: Alter>(
    alloc: Global,
    conn: &mut Connection<S>,
    id: u32,
) -> Result<StoredUnit, OpenFault>
    ensures reads { Reads (state S.Store conn.old) (state S.Store conn.new) }
    ensures found { HasCleanDisk (state S.Store conn.new) → AreKnown (state S.Store conn.old).now
        → IfOk result (λ row. look_up (state S.Store conn.old).now.trees (unit_key id) ≡ Some (columns_of (stored.Unit row))) }
    ensures bad { HasCleanDisk (state S.Store conn.new) → AreKnown (state S.Store conn.old).now
        → IfErr result (λ e. e ≡ OpenFault.BadRow → look_up (state S.Store conn.old).now.trees (unit_key id) ≡ None) }
{
    match unit_of(alloc, conn, id) {
        Ok(Some(row)) => Ok(row),
        Ok(None) => Err(OpenFault::BadRow),
        Err(fault) => Err(OpenFault::Unavailable(fault.cause())),
    }
}

/// Reads the row of the mark of the workunit of a number. `BadRow` if it does not exist.
fn standing_mark<S: Alter>(
    alloc: Global,
    conn: &mut Connection<S>,
    id: u32,
) -> Result<StoredUnitMark, OpenFault>
    ensures reads { Reads (state S.Store conn.old) (state S.Store conn.new) }
    ensures found { HasCleanDisk (state S.Store conn.new) → AreKnown (state S.Store conn.old).now
        → IfOk result (λ row. look_up (state S.Store conn.old).now.trees (mark_key id) ≡ Some (columns_of (stored.UnitMark row))) }
    ensures bad { HasCleanDisk (state S.Store conn.new) → AreKnown (state S.Store conn.old).now
        → IfErr result (λ e. e ≡ OpenFault.BadRow → look_up (state S.Store conn.old).now.trees (mark_key id) ≡ None) }
{
    match mark_of(alloc, conn, id) {
        Ok(Some(row)) => Ok(row),
        Ok(None) => Err(OpenFault::BadRow),
        Err(fault) => Err(OpenFault::Unavailable(fault.cause())),
    }
}

/// Reads the rows of the workunit of a number and of its mark. `BadRow` if one of them does not exist.
fn unit_and_mark<S: Alter>(
    alloc: Global,
    conn: &mut Connection<S>,
    id: u32,
) -> Result<(StoredUnit, StoredUnitMark), OpenFault>
    ensures reads { Reads (state S.Store conn.old) (state S.Store conn.new) }
    ensures found { WereKnown (state S.Store conn.old) (state S.Store conn.new)
        → IfOk result (λ rows. (look_up (state S.Store conn.old).now.trees (unit_key id) ≡ Some (columns_of (stored.Unit rows.0)))
        × (look_up (state S.Store conn.old).now.trees (mark_key id) ≡ Some (columns_of (stored.UnitMark rows.1)))) }
    ensures bad { WereKnown (state S.Store conn.old) (state S.Store conn.new) → IfErr result (λ e. e ≡ OpenFault.BadRow → LacksRow (state S.Store conn.old).now.trees id) }
{
    let unit = standing_unit(alloc, conn, id)?;
    let mark = standing_mark(alloc, conn, id)?;
    Ok((unit, mark))
}

/// Reads the row of the instance of a workunit with this number. `BadRow` if it does not exist.
fn standing_instance<S: Alter>(
    alloc: Global,
    conn: &mut Connection<S>,
    id: u32,
    number: u32,
) -> Result<StoredInstance, OpenFault>
    ensures reads { Reads (state S.Store conn.old) (state S.Store conn.new) }
    ensures found { HasCleanDisk (state S.Store conn.new) → AreKnown (state S.Store conn.old).now
        → IfOk result (λ row. look_up (state S.Store conn.old).now.trees (instance_key id number) ≡ Some (columns_of (stored.Instance row))) }
    ensures bad { HasCleanDisk (state S.Store conn.new) → AreKnown (state S.Store conn.old).now
        → IfErr result (λ e. e ≡ OpenFault.BadRow → look_up (state S.Store conn.old).now.trees (instance_key id number) ≡ None) }
{
    match instance_of(alloc, conn, id, number) {
        Ok(Some(row)) => Ok(row),
        Ok(None) => Err(OpenFault::BadRow),
        Err(fault) => Err(OpenFault::Unavailable(fault.cause())),
    }
}

/// Reads the rows of the first `count` instances of a workunit. `BadRow` if one of them does not exist.
fn instance_rows<S: Alter>(
    alloc: Global,
    conn: &mut Connection<S>,
    id: u32,
    count: u32,
) -> Result<Listed<StoredInstance>, OpenFault>
    ensures reads { Reads (state S.Store conn.old) (state S.Store conn.new) }
    ensures found { WereKnown (state S.Store conn.old) (state S.Store conn.new) → IfOk result (AreInstancesFound (state S.Store conn.old).now.trees id count) }
    ensures bad { WereKnown (state S.Store conn.old) (state S.Store conn.new)
        → IfErr result (λ e. e ≡ OpenFault.BadRow → (k : ℕ) × (k < count) × (look_up (state S.Store conn.old).now.trees (instance_key id k) ≡ None)) }
{
    let mut rows = Listed::new(alloc);
    for number in 0..count {
        let row = standing_instance(alloc, conn, id, number)?;
        rows.push(row)?;
    }
    Ok(rows)
}

/// Reads the rows of a workunit, of its mark and of its first `count` instances. `BadRow` if one of them does not
/// exist.
fn unit_rows<S: Alter>(
    alloc: Global,
    conn: &mut Connection<S>,
    id: u32,
    count: u32,
) -> Result<UnitRows, OpenFault>
    ensures reads { Reads (state S.Store conn.old) (state S.Store conn.new) }
    ensures found { WereKnown (state S.Store conn.old) (state S.Store conn.new) → IfOk result (AreFound (state S.Store conn.old).now.trees id count) }
    ensures bad { WereKnown (state S.Store conn.old) (state S.Store conn.new) → IfErr result (λ e. e ≡ OpenFault.BadRow → HasGap (state S.Store conn.old).now.trees id count) }
{
    let instances = instance_rows(alloc, conn, id, count)?;
    let (unit, mark) = unit_and_mark(alloc, conn, id)?;
    Ok(UnitRows {
        unit,
        mark,
        instances,
    })
}

/// Tests a workunit against its rows. Notes its name, counts what its hosts hold and earned, and lowers `due_from` to the
/// least deadline of what they hold. `BadRow` if the rows are not its own, if it is not sound, or if its name was seen
/// before.
fn test_book(
    world: &World,
    id: u32,
    book: &UnitBook,
    rows: &UnitRows,
    names: &mut SeenSet<Text>,
    totals: &mut [Total],
    due_from: &mut u64,
) -> Result<(), OpenFault>
    ensures passes { OnOk result (IsSoundUnit world.now.hosts world.now.apps book.now × (rows.now ≡ rows_of_unit world.now id book.now)) }
    ensures name { OnOk result ((has_name names.old book.now.unit.name ≡ false)
        × ((other : List ℕ) → has_name names.new other ≡ (bytes_eq other book.now.unit.name || has_name names.old other))) }
    ensures counts { OnOk result ((totals.new ≡ map_from 1 (with_unit world.now.apps book.now) totals.old) × (due_from.new ≡ lowered_to_each due_from.old book.now.instances)) }
    ensures bad { IfErr result (λ e. e ≡ OpenFault.BadRow → IsSoundUnit world.now.hosts world.now.apps book.now → rows.now ≡ rows_of_unit world.now id book.now
        → IsTrue (has_name names.old book.now.unit.name)) }
{
    if !are_unit_rows(world, id, book, rows)? {
        return Err(OpenFault::BadRow);
    }
    if !is_sound_unit(world.hosts.as_slice(), world.apps.as_slice(), book) {
        return Err(OpenFault::BadRow);
    }
    if !names.is_first(book.unit.name.clone()?)? {
        return Err(OpenFault::BadRow);
    }
    count_unit(totals, world.apps.as_slice(), book)?;
    *due_from = lowered_to_each(*due_from, book.instances.as_slice());
    Ok(())
}

/// Tests the workunit of these rows as [`test_book`] does. `BadRow` if they are not those of a sound workunit, or if
/// its name was seen before.
fn test_rows(
    alloc: Global,
    world: &World,
    id: u32,
    rows: &UnitRows,
    names: &mut SeenSet<Text>,
    totals: &mut [Total],
    due_from: &mut u64,
) -> Result<(), OpenFault>
    ensures passes { OnOk result ((b : Book) × IsSoundUnit world.now.hosts world.now.apps b × (rows.now ≡ rows_of_unit world.now id b)
        × (has_name names.old b.unit.name ≡ false) × ((other : List ℕ) → has_name names.new other ≡ (bytes_eq other b.unit.name || has_name names.old other))
        × (totals.new ≡ map_from 1 (with_unit world.now.apps b) totals.old) × (due_from.new ≡ lowered_to_each due_from.old b.instances)) }
    ensures bad { IfErr result (λ e. e ≡ OpenFault.BadRow → (b : Book) → IsSoundUnit world.now.hosts world.now.apps b → rows.now ≡ rows_of_unit world.now id b
        → IsTrue (has_name names.old b.unit.name)) }
{
    let book = match unit_book(alloc, world.apps.as_slice(), rows) {
        Ok(book) => book,
        Err(RowFault::BadRow) => return Err(OpenFault::BadRow),
        Err(RowFault::Unavailable) => return Err(OpenFault::Unavailable(Cause::Memory)),
    };
    test_book(world, id, &book, rows, names, totals, due_from)
}

/// Reads the rows of a workunit with `count` instances by their keys, and tests it as [`test_book`] does. `BadRow` if
/// there is no such sound workunit at these keys, or if its name was seen before.
fn test_unit<S: Alter>(
    alloc: Global,
    conn: &mut Connection<S>,
    world: &World,
    id: u32,
    count: u32,
    names: &mut SeenSet<Text>,
    totals: &mut [Total],
    due_from: &mut u64,
) -> Result<(), OpenFault>
    ensures reads { Reads (state S.Store conn.old) (state S.Store conn.new) }
    ensures stands { WereKnown (state S.Store conn.old) (state S.Store conn.new) → OnOk result ((b : Book) × PassesAt (state S.Store conn.old).now.trees world.now id count b
        × (has_name names.old b.unit.name ≡ false) × ((other : List ℕ) → has_name names.new other ≡ (bytes_eq other b.unit.name || has_name names.old other))
        × (totals.new ≡ map_from 1 (with_unit world.now.apps b) totals.old) × (due_from.new ≡ lowered_to_each due_from.old b.instances)) }
    ensures bad { WereKnown (state S.Store conn.old) (state S.Store conn.new)
        → IfErr result (λ e. e ≡ OpenFault.BadRow → (b : Book) → PassesAt (state S.Store conn.old).now.trees world.now id count b → IsTrue (has_name names.old b.unit.name)) }
{
    let rows = unit_rows(alloc, conn, id, count)?;
    test_rows(alloc, world, id, &rows, names, totals, due_from)
}

/// Tests the workunits of the tables in the order of their numbers. Each has as many instances as `counts` says. Counts
/// for each host what it holds of them and what it earned, and lowers `due_from` to the least deadline of what is held.
/// `BadRow` if one of them is not there or not sound, or if two have the same name.
pub(crate) fn test_units<S: Alter>(
    alloc: Global,
    conn: &mut Connection<S>,
    world: &World,
    counts: &[u32],
    totals: &mut [Total],
    due_from: &mut u64,
) -> Result<(), OpenFault>
    ensures reads { Reads (state S.Store conn.old) (state S.Store conn.new) }
    ensures stand { WereKnown (state S.Store conn.old) (state S.Store conn.new) → OnOk result ((books : List Book)
        × AreTested (state S.Store conn.old).now.trees world.now counts.now (length counts.now) books × (totals.new ≡ map_from 1 (with_units world.now.apps books) totals.old)
        × (due_from.new ≡ lowered_to_units due_from.old books)) }
    ensures bad { WereKnown (state S.Store conn.old) (state S.Store conn.new)
        → IfErr result (λ e. e ≡ OpenFault.BadRow → (books : List Book) → ¬ AreTested (state S.Store conn.old).now.trees world.now counts.now (length counts.now) books) }
{
    let mut names = SeenSet::new(alloc);
    for (index, count) in counts.iter().enumerate() {
        let Ok(id) = u32::try_from(index + 1) else {
            return Err(OpenFault::Unavailable(Cause::Broken(Invariant::NumberOfUnit)));
        };
        test_unit(alloc, conn, world, id, *count, &mut names, totals, due_from)?;
    }
    Ok(())
}
