//! Tables made anew, and tables opened that were made before.

ghost use Rattle.std.specs.Prelude.{◌≡◌, ◌≢◌, ℕ, IfOk, IfErr, IfSome, OnOk};
ghost use Rattle.sqlite.specs.Held.{state};
ghost use Rattle.sqlite.specs.State.{HasCleanDisk};
ghost use Rattle.sqlite.specs.Steps.{over_memory};
ghost use Rattle.sched_book.specs.Sound.{Sound};
ghost use Rattle.sched_book.specs.Step.{empty_world};
ghost use Rattle.stores.specs.Held.{Held, IsLeft, IsNew};
ghost use Rattle.table_meaning.specs.Schema.{no_schema};
ghost use Rattle.table_reading.specs.Reading.{ReadFrom};
ghost use Rattle.table_rows.specs.Refusing.{fault_of, given_back, rest_of, HasNoTransaction, IsRestOf, IsUnavailable};
ghost use Rattle.table_worlds.specs.RowsOf.{setting_rows as spec_rows};
ghost use Rattle.sched_tables.specs.Held.{IsHonest, NeverFails};
ghost use Rattle.sched_tables.specs.Making.{IsRestOfMaking};
ghost use Rattle.sched_tables.specs.Refusals.{AreRefusedFor};
ghost use Rattle.sched_tables.specs.Reopening.{Reopens};
ghost use Rattle.sched_tables.specs.Stops.{MayBeFound};
ghost use Rattle.sched_tables.specs.Views.{state_of, world_of, held_of, AreKept};

use crate::tables::Tables;
use sched_book::{Cause, Settings, StorageFault, copy_of};
use sqlite::{Alter, Connection, MemStore};
use std::alloc::Global;
use table_cache::Cache;
use table_meaning::rows::RowChange;
use table_reading::stored_world;
use table_rows::{OpenFault, OpenRefusal, create, known, test_open};
use table_worlds::setting_rows;
use texts::Listed;

impl<S: Alter + Drop> Tables<S> {
    /// Makes the tables in an empty database, with these settings and in one transaction. They hold the empty world, and
    /// nothing was heard. If that world is sound, they can be opened again. If they can't be made, it gives the store back
    /// with the reason. A database that is not empty stays as it is.
    ///
    /// # Errors
    ///
    /// `NotTables` if the database is not empty. `Unavailable` if memory or the disk failed.
    pub fn make(
        alloc: Global,
        conn: Connection<S>,
        settings: &Settings,
    ) -> Result<Tables<S>, (OpenFault, S)>
        ensures open { IfOk result (λ t. HasCleanDisk (state_of S.Store t) → IsHonest (state_of S.Store t)) }
        ensures held { IfOk result (λ t. HasCleanDisk (state_of S.Store t) → AreKept S.Store t) }
        ensures new { IfOk result (λ t. HasCleanDisk (state_of S.Store t) → IsNew settings.now (held_of S.Store t)) }
        ensures empty { OnOk result ((state S.Store conn).now.schema ≡ no_schema) }
        ensures clean { IfOk result (λ t. HasCleanDisk (state_of S.Store t) → HasCleanDisk (state S.Store conn)) }
        ensures taken { IfErr result (λ e. e.0 ≡ OpenFault.NotTables → (state S.Store conn).now.schema ≢ no_schema) }
        ensures never_bad { IfErr result (λ e. e.0 ≢ OpenFault.BadRow) }
        ensures never_old { IfErr result (λ e. (n : ℕ) → e.0 ≢ OpenFault.OldSchema n) }
        ensures reopens { Sound (empty_world settings.now) → IfOk result (λ t. Reopens (state_of S.Store t)) }
        ensures rest { IfErr result (λ e. IsRestOfMaking S.Store settings.now (state S.Store conn) e.1) }
    {
        match settings_and_rows(alloc, settings) {
            Ok((settings, rows)) => Tables::made_of(alloc, conn, settings, rows.as_slice()),
            Err(fault) => Err((fault, conn.into_store())),
        }
    }

    /// Makes the tables in an empty database, with these settings and their rows.
    fn made_of(
        alloc: Global,
        mut conn: Connection<S>,
        settings: Settings,
        rows: &[RowChange],
    ) -> Result<Tables<S>, (OpenFault, S)>
        requires { rows.now ≡ spec_rows settings }
        ensures open { IfOk result (λ t. HasCleanDisk (state_of S.Store t) → IsHonest (state_of S.Store t)) }
        ensures held { IfOk result (λ t. HasCleanDisk (state_of S.Store t) → AreKept S.Store t) }
        ensures new { IfOk result (λ t. HasCleanDisk (state_of S.Store t) → IsNew settings (held_of S.Store t)) }
        ensures empty { OnOk result ((state S.Store conn).now.schema ≡ no_schema) }
        ensures clean { IfOk result (λ t. HasCleanDisk (state_of S.Store t) → HasCleanDisk (state S.Store conn)) }
        ensures taken { IfErr result (λ e. e.0 ≡ OpenFault.NotTables → (state S.Store conn).now.schema ≢ no_schema) }
        ensures never_bad { IfErr result (λ e. e.0 ≢ OpenFault.BadRow) }
        ensures never_old { IfErr result (λ e. (n : ℕ) → e.0 ≢ OpenFault.OldSchema n) }
        ensures reopens { Sound (empty_world settings) → IfOk result (λ t. Reopens (state_of S.Store t)) }
        ensures rest { IfErr result (λ e. IsRestOfMaking S.Store settings (state S.Store conn) e.1) }
    {
        match create(alloc, &mut conn, rows) {
            Ok(()) => Ok(Tables {
                alloc,
                conn,
                settings,
                apps: Listed::new(alloc),
                cache: Cache::new(alloc),
                due_from: 0,
                asked: 0,
            }),
            Err(fault) => Err((fault, conn.into_store())),
        }
    }

    /// Makes the tables in an empty database, as [`Tables::make`] does. A connection that is refused is dropped.
    pub fn create(
        alloc: Global,
        conn: Connection<S>,
        settings: &Settings,
    ) -> Result<Tables<S>, OpenFault>
        ensures open { IfOk result (λ t. HasCleanDisk (state_of S.Store t) → IsHonest (state_of S.Store t)) }
        ensures held { IfOk result (λ t. HasCleanDisk (state_of S.Store t) → AreKept S.Store t) }
        ensures new { IfOk result (λ t. HasCleanDisk (state_of S.Store t) → IsNew settings.now (held_of S.Store t)) }
        ensures empty { OnOk result ((state S.Store conn).now.schema ≡ no_schema) }
        ensures taken { IfErr result (λ e. e ≡ OpenFault.NotTables → (state S.Store conn).now.schema ≢ no_schema) }
        ensures never_bad { IfErr result (λ e. e ≢ OpenFault.BadRow) }
        ensures never_old { IfErr result (λ e. (n : ℕ) → e ≢ OpenFault.OldSchema n) }
        ensures reopens { Sound (empty_world settings.now) → IfOk result (λ t. Reopens (state_of S.Store t)) }
    {
        match Tables::make(alloc, conn, settings) {
            Ok(tables) => Ok(tables),
            Err((fault, _store)) => Err(fault),
        }
    }

    /// Opens the tables of a database that were made before, or gives the connection back with the reason.
    ///
    /// `OldSchema` names the number of an older schema. `NotTables` means that the tables are of no schema, or do not say of
    /// which. `BadRow` means that the rows are not those of a sound world with what may be kept with it, as
    /// [`table_reading::stored_world`] says. A connection that is given back is opened anew: it has no open transaction, and
    /// its file is as it was. If memory or the disk failed, the refusal has the store that was under the connection. What a
    /// stop leaves of a refusal is what it could leave of the connection, or what was last committed there. A stop after the
    /// opening leaves what the tables hold, and that can be opened again.
    pub fn adopt(alloc: Global, conn: Connection<S>) -> Result<Tables<S>, OpenRefusal<S>>
        ensures open { IfOk result (λ t. HasCleanDisk (state_of S.Store t) → IsHonest (state_of S.Store t)) }
        ensures sound { IfOk result (λ t. HasCleanDisk (state_of S.Store t) → Sound (world_of S.Store t)) }
        ensures held { IfOk result (λ t. HasCleanDisk (state_of S.Store t) → AreKept S.Store t) }
        ensures same { IfOk result (λ t. HasCleanDisk (state_of S.Store t) → (state_of S.Store t).now ≡ (state S.Store conn).committed) }
        ensures clean { IfOk result (λ t. HasCleanDisk (state_of S.Store t) → HasCleanDisk (state S.Store conn)) }
        ensures rows { IfOk result (λ t. HasCleanDisk (state_of S.Store t) → ReadFrom (state_of S.Store t).now.trees (world_of S.Store t)) }
        ensures stop { IfOk result (λ t. HasCleanDisk (state_of S.Store t) → (h : Held) → MayBeFound (state_of S.Store t) h → IsLeft (held_of S.Store t) h) }
        ensures reopens { IfOk result (λ t. Reopens (state_of S.Store t)) }
        ensures refused { IfErr result (λ e. IfSome (given_back e) (λ c. HasCleanDisk (state S.Store c) → AreRefusedFor (fault_of e) (state S.Store conn).committed)) }
        ensures back { IfErr result (λ e. IfSome (given_back e) (λ c. HasCleanDisk (state S.Store c) → HasNoTransaction (state S.Store conn).committed (state S.Store c))) }
        ensures rest { IfErr result (λ e. IsRestOf S.Store (state S.Store conn) (rest_of e)) }
    {
        let mut conn = known(alloc, conn)?;
        let read = stored_world(alloc, &mut conn);
        if test_open(&mut conn).is_err() {
            let cause = Cause::Storage(StorageFault::Closed);
            return Err(OpenRefusal::Unavailable(cause, conn.into_store()));
        }
        match read {
            Ok(kept) => Ok(Tables {
                alloc,
                conn,
                settings: kept.settings,
                apps: kept.apps,
                cache: Cache::new(alloc),
                due_from: kept.due_from,
                asked: 0,
            }),
            Err(fault) => Err(OpenRefusal::of(fault, conn)),
        }
    }

    /// Opens the tables of a database that were made before.
    ///
    /// `OldSchema` names the number of an older schema. `NotTables` means that the tables are of no schema, or do not say of
    /// which. `BadRow` means that the rows are not those of a sound world with what may be kept with it, as
    /// [`table_reading::stored_world`] says. A refused connection is dropped, and its file is as it was.
    /// [`Tables::adopt`] gives it back. A stop after the opening leaves what the tables hold.
    pub fn open(alloc: Global, conn: Connection<S>) -> Result<Tables<S>, OpenFault>
        ensures open { IfOk result (λ t. HasCleanDisk (state_of S.Store t) → IsHonest (state_of S.Store t)) }
        ensures sound { IfOk result (λ t. HasCleanDisk (state_of S.Store t) → Sound (world_of S.Store t)) }
        ensures held { IfOk result (λ t. HasCleanDisk (state_of S.Store t) → AreKept S.Store t) }
        ensures same { IfOk result (λ t. HasCleanDisk (state_of S.Store t) → (state_of S.Store t).now ≡ (state S.Store conn).committed) }
        ensures clean { IfOk result (λ t. HasCleanDisk (state_of S.Store t) → HasCleanDisk (state S.Store conn)) }
        ensures rows { IfOk result (λ t. HasCleanDisk (state_of S.Store t) → ReadFrom (state_of S.Store t).now.trees (world_of S.Store t)) }
        ensures stop { IfOk result (λ t. HasCleanDisk (state_of S.Store t) → (h : Held) → MayBeFound (state_of S.Store t) h → IsLeft (held_of S.Store t) h) }
        ensures reopens { IfOk result (λ t. Reopens (state_of S.Store t)) }
        ensures refused { NeverFails S.Store → IfErr result (λ e. AreRefusedFor e (state S.Store conn).committed) }
    {
        Ok(Tables::adopt(alloc, conn)?)
    }
}

/// A copy of the settings, and their rows.
fn settings_and_rows(
    alloc: Global,
    settings: &Settings,
) -> Result<(Settings, Listed<RowChange>), OpenFault>
    ensures settings { IfOk result (λ both. both.0 ≡ settings.now) }
    ensures rows { IfOk result (λ both. both.1 ≡ spec_rows settings.now) }
    ensures unavailable { IfErr result IsUnavailable }
{
    let kept = copy_of(settings)?;
    let rows = RowChange::inserts(alloc, setting_rows(alloc, settings)?)?;
    Ok((kept, rows))
}

impl Tables<MemStore> {
    /// New tables in memory, with these settings. They have no disk, so they stay open.
    pub fn in_memory(alloc: Global, settings: &Settings) -> Result<Tables<MemStore>, OpenFault>
        ensures open { IfOk result (λ t. IsHonest (state_of over_memory t)) }
        ensures held { IfOk result (AreKept over_memory) }
        ensures new { IfOk result (λ t. IsNew settings.now (held_of over_memory t)) }
        ensures unavailable { IfErr result IsUnavailable }
        ensures reopens { Sound (empty_world settings.now) → IfOk result (λ t. Reopens (state_of over_memory t)) }
    {
        let conn = Connection::open_in_memory(alloc)?;
        Tables::create(alloc, conn, settings)
    }
}
