//! The sound world that rows represent.

ghost use Rattle.std.specs.Prelude.{◌≡◌, ◌≢◌, ◌↔◌, ◌⊎◌, ℕ, [], List, length, IsTrue, IfOk, IfErr, OnOk};
ghost use Rattle.sqlite.specs.Held.{state};
ghost use Rattle.sqlite_rules.specs.Lists.{Has};
ghost use Rattle.sched_book.specs.Places.{overdue};
ghost use Rattle.sched_book.specs.Sound.{Sound};
ghost use Rattle.sched_book.specs.declared.instance.UnitBook.{UnitBook as Book};
ghost use Rattle.sched_book.specs.declared.world.World.{World as Known};
ghost use Rattle.table_meaning.specs.Kept.{calls_in, batches_in};
ghost use Rattle.table_meaning.specs.Reads.{Reads};
ghost use Rattle.table_meaning.specs.Worlds.{HoldWorld};
ghost use Rattle.table_worlds.specs.RowsOf.{having, without_units, AreOtherRows};
ghost use Rattle.table_worlds.specs.StoredWorld.{world_in};
ghost use Rattle.table_decoding.specs.Decoding.{schema_row};
ghost use Rattle.table_reading.specs.Reading.{AllRows, AreAllRead, AreTyped, AreUtf8, reading_of, WereKnown, ReadFrom, Represent, RepresentNone, HasBadTable, HasOtherSchema};
ghost use Rattle.table_rows.specs.Refusing.{IsUnavailable};
ghost use Rattle.table_reading.specs.Testing.{AreTested, IsFit};

use crate::due::LAST_DEADLINE;
use crate::kept::are_calls_of;
use crate::rows::{Reading, read_all};
use crate::units::test_units;
use sched_book::limits::MOST_WORKUNITS;
use sched_book::{App, Cause, Settings, Unavailable, World};
use sqlite::{Alter, Connection};
use std::alloc::Global;
use table_decoding::{RowFault, decoded_world};
use table_rows::OpenFault;
use table_worlds::{are_other_rows, no_totals};
use texts::Listed;
use world_soundness::is_sound;

/// The parts of the world that stay in memory, next to the tables.
#[derive(Drop)]
pub struct InMemory {
    pub settings: Settings,
    pub apps: Listed<App>,
    /// No held instance has its deadline before this moment, in seconds since 1970-01-01T00:00:00Z.
    pub due_from: u64,
}

/// Whether a world fits its reading. The world without its workunits is sound. The workunits are numbered in turn and
/// not too many, and each has a mark. The calls and imports may be kept with the world.
fn is_fit(alloc: Global, world: &World, reading: &Reading) -> Result<bool, Unavailable>
    ensures { IfOk result (λ fit. IsTrue fit ↔ IsFit world.now reading.now) }
{
    let sound = is_sound(alloc, world)?;
    Ok(
        sound
            && reading.units.are_in_turn
            && reading.units.counts.len() <= MOST_WORKUNITS
            && reading.units.last_mark as usize == reading.units.counts.len()
            && are_calls_of(world, reading)
            && reading.are_imports,
    )
}

/// Tests the workunits of the tables one by one. Then tests the rows that were read, with what was counted. Returns a
/// moment before which no held instance has its deadline. `BadRow` if there are no sound workunits at their keys, or if
/// the rows are not those of the world with these workunits.
fn test_rows<S: Alter>(
    alloc: Global,
    conn: &mut Connection<S>,
    world: &World,
    reading: &Reading,
) -> Result<u64, OpenFault>
    ensures reads { Reads (state S.Store conn.old) (state S.Store conn.new) }
    ensures stand { WereKnown (state S.Store conn.old) (state S.Store conn.new) → IfOk result (λ due_from. (books : List Book)
        × AreTested (state S.Store conn.old).now.trees world.now reading.now.units.counts (length reading.now.units.counts) books × AreOtherRows (having world.now books) reading.now.rows
        × (overdue (having world.now books) due_from ≡ [])) }
    ensures bad { WereKnown (state S.Store conn.old) (state S.Store conn.new) → IfErr result (λ e. e ≡ OpenFault.BadRow → (books : List Book)
        → AreTested (state S.Store conn.old).now.trees world.now reading.now.units.counts (length reading.now.units.counts) books → ¬ AreOtherRows (having world.now books) reading.now.rows) }
{
    let mut totals = no_totals(alloc, world.hosts.len())?;
    let mut due_from = LAST_DEADLINE;
    test_units(
        alloc,
        conn,
        world,
        reading.units.counts.as_slice(),
        totals.as_mut_slice(),
        &mut due_from,
    )?;
    if are_other_rows(alloc, world, totals.as_slice(), &reading.rows)? {
        Ok(due_from)
    } else {
        Err(OpenFault::BadRow)
    }
}

/// Tests whether all rows are those of a sound world that is this one with some workunits. Returns a moment before which
/// no held instance has its deadline. `BadRow` if they are not.
fn test_world<S: Alter>(
    alloc: Global,
    conn: &mut Connection<S>,
    world: &World,
    reading: &Reading,
) -> Result<u64, OpenFault>
    ensures reads { Reads (state S.Store conn.old) (state S.Store conn.new) }
    ensures stands { WereKnown (state S.Store conn.old) (state S.Store conn.new) → (all : AllRows) → AreAllRead (state S.Store conn.old).now.trees all → AreTyped all
        → reading.now ≡ reading_of all → IfOk result (λ due_from. (books : List Book) × Represent (having world.now books) all × (overdue (having world.now books) due_from ≡ [])) }
    ensures bad { WereKnown (state S.Store conn.old) (state S.Store conn.new) → (all : AllRows) → AreAllRead (state S.Store conn.old).now.trees all → AreTyped all
        → reading.now ≡ reading_of all → world.now.units ≡ [] → IfErr result (λ e. e ≡ OpenFault.BadRow → (books : List Book) → ¬ Represent (having world.now books) all) }
{
    if !is_fit(alloc, world, reading)? {
        return Err(OpenFault::BadRow);
    }
    test_rows(alloc, conn, world, reading)
}

/// The world of the other tables' rows, without its workunits.
fn world_without_units(alloc: Global, reading: &Reading) -> Result<World, OpenFault>
    ensures told { (w : Known) → Sound w → AreOtherRows w reading.now.rows → IfOk result (λ d. d ≡ without_units w) }
    ensures alone { IfOk result (λ d. d.units ≡ []) }
    ensures refused { (w : Known) → Sound w → AreOtherRows w reading.now.rows → IfErr result IsUnavailable }
    ensures other_schema { IfErr result (λ e. e ≡ OpenFault.NotTables → ¬ Has reading.now.rows.settings schema_row) }
    ensures never_old { IfErr result (λ e. (n : ℕ) → e ≢ OpenFault.OldSchema n) }
{
    match decoded_world(alloc, &reading.rows) {
        Ok(Some(world)) => Ok(world),
        Ok(None) => Err(OpenFault::NotTables),
        Err(RowFault::BadRow) => Err(OpenFault::BadRow),
        Err(RowFault::Unavailable) => Err(OpenFault::Unavailable(Cause::Memory)),
    }
}

/// Reads the sound world that the tables of a connection hold, if their schema is the newest one. Returns its settings and
/// applications, and a moment before which no held instance has its deadline. `NotTables` if no setting names this schema. `BadRow` if a row does not have the format
/// of its table, or if the rows represent no sound world. In the second case a value is out of range, a reference leads
/// to nothing, a number is left out, or a counted column is wrong. What the connection shows is unchanged.
///
/// Workunits, marks and instances are read by their keys, one workunit at a time. The other rows are held in memory
/// while they are tested. So are the name and the number of instances of each workunit.
pub fn stored_world<S: Alter>(
    alloc: Global,
    conn: &mut Connection<S>,
) -> Result<InMemory, OpenFault>
    ensures reads { Reads (state S.Store conn.old) (state S.Store conn.new) }
    ensures stands { WereKnown (state S.Store conn.old) (state S.Store conn.new)
        → OnOk result (ReadFrom (state S.Store conn.old).now.trees (world_in (state S.Store conn.old).now.trees)) }
    ensures held { WereKnown (state S.Store conn.old) (state S.Store conn.new) → OnOk result
        (HoldWorld (state S.Store conn.old).now (world_in (state S.Store conn.old).now.trees) (calls_in (state S.Store conn.old).now.trees) (batches_in (state S.Store conn.old).now.trees)) }
    ensures utf8 { WereKnown (state S.Store conn.old) (state S.Store conn.new) → OnOk result (AreUtf8 (state S.Store conn.old).now.trees) }
    ensures kept { WereKnown (state S.Store conn.old) (state S.Store conn.new) → IfOk result (λ kept.
        (kept.settings ≡ (world_in (state S.Store conn.old).now.trees).settings) × (kept.apps ≡ (world_in (state S.Store conn.old).now.trees).apps)) }
    ensures due_from { WereKnown (state S.Store conn.old) (state S.Store conn.new) → IfOk result (λ kept. overdue (world_in (state S.Store conn.old).now.trees) kept.due_from ≡ []) }
    ensures other_schema { WereKnown (state S.Store conn.old) (state S.Store conn.new)
        → IfErr result (λ e. e ≡ OpenFault.NotTables → HasOtherSchema (state S.Store conn.old).now.trees) }
    ensures bad { WereKnown (state S.Store conn.old) (state S.Store conn.new)
        → IfErr result (λ e. e ≡ OpenFault.BadRow → HasBadTable (state S.Store conn.old).now.trees ⊎ RepresentNone (state S.Store conn.old).now.trees) }
    ensures never_old { IfErr result (λ e. (n : ℕ) → e ≢ OpenFault.OldSchema n) }
{
    let reading = match read_all(alloc, conn) {
        Ok(reading) => reading,
        Err(OpenFault::BadRow) => return Err(OpenFault::BadRow),
        Err(fault) => return Err(OpenFault::Unavailable(fault.cause())),
    };
    let world = world_without_units(alloc, &reading)?;
    match test_world(alloc, conn, &world, &reading) {
        Ok(due_from) => Ok(InMemory {
            settings: world.settings,
            apps: world.apps,
            due_from,
        }),
        Err(OpenFault::BadRow) => Err(OpenFault::BadRow),
        Err(fault) => Err(OpenFault::Unavailable(fault.cause())),
    }
}
