//! Makes the tables in an empty database.

ghost use Rattle.std.specs.Prelude.{◌≡◌, ◌≢◌, ℕ, ◌≤◌, ◌<◌, false, [], length, IsTrue, IfErr, OnOk, OnErr};
ghost use Rattle.sqlite_schema.specs.declared.schema.Schema.{Schema};
ghost use Rattle.sqlite_trees.specs.Tree.{Trees};
ghost use Rattle.sqlite.specs.Held.{state};
ghost use Rattle.sqlite.specs.Effect.{IsDatabase};
ghost use Rattle.sqlite.specs.State.{HasCleanDisk, IsLive, KeepsCommit, Survives};
ghost use Rattle.table_meaning.specs.Schema.{no_schema, parts_at, newest, schema_at};
ghost use Rattle.table_meaning.specs.Schemas.{definitions_between};
ghost use Rattle.table_meaning.specs.Making.{AreStillToMake};
ghost use Rattle.table_meaning.specs.Steps.{HoldJust};
ghost use Rattle.table_rows.specs.Utf8.{HaveUtf8};

use crate::opening::OpenFault;
use crate::put::put_each;
use crate::statements::{definition, size_of};
use sched_book::{Cause, Invariant};
use sqlite::{Alter, Connection, Error, Transaction};
use std::alloc::Global;
use table_meaning::rows::RowChange;
use table_meaning::tables::NEWEST_SCHEMA;

/// Whether the database is empty.
fn is_empty<S: Alter>(conn: &Connection<S>) -> bool
    ensures empty { IsTrue result → (state S.Store conn.now).now.schema ≡ no_schema }
    ensures other { result ≡ false → (state S.Store conn.now).now.schema ≢ no_schema }
    ensures live { IsLive (state S.Store conn.now) }
{
    let schema = conn.schema();
    schema.tables.as_slice().is_empty()
        && schema.indexes.as_slice().is_empty()
        && schema.views.as_slice().is_empty()
}

/// Makes the tables and the indexes that schema `to` has and schema `from` lacks, one after another, within the
/// transaction.
pub fn define<S: Alter>(tx: &mut Transaction<'_, S>, from: u32, to: u32) -> Result<(), Error>
    requires from { from ≤ newest }
    requires to { to ≤ newest }
    ensures same_reference { tx.new.conn.ghost_name ≡ tx.old.conn.ghost_name }
    ensures survives { Survives (state S.Store tx.old.conn.now) (state S.Store tx.new.conn.now) (λ _. ⊥) }
    ensures kept { HasCleanDisk (state S.Store tx.new.conn.now) → KeepsCommit (state S.Store tx.old.conn.now) (state S.Store tx.new.conn.now) }
    ensures made { HasCleanDisk (state S.Store tx.new.conn.now) → IsTrue (state S.Store tx.old.conn.now).in_transaction
        → (wanted : Schema) (rows : Trees) → AreStillToMake wanted rows (definitions_between from to) (state S.Store tx.old.conn.now).now
        → OnOk result (AreStillToMake wanted rows [] (state S.Store tx.new.conn.now).now × (IsDatabase (state S.Store tx.old.conn.now).now → IsDatabase (state S.Store tx.new.conn.now).now)) }
    ensures inside { HasCleanDisk (state S.Store tx.new.conn.now) → IsTrue (state S.Store tx.old.conn.now).in_transaction → OnOk result (IsTrue (state S.Store tx.new.conn.now).in_transaction) }
    ensures ran { HasCleanDisk (state S.Store tx.new.conn.now) → length (parts_at from) < length (parts_at to)
        → OnOk result (IsTrue (state S.Store tx.old.conn.now).is_open × IsTrue (state S.Store tx.new.conn.now).in_transaction) }
{
    for at in size_of(from)..size_of(to) {
        tx.execute(definition(at), &[])?;
    }
    Ok(())
}

/// Makes the tables and the indexes, and puts these rows.
fn make_tables<S: Alter>(
    alloc: Global,
    tx: &mut Transaction<'_, S>,
    rows: &[RowChange],
) -> Result<(), Error>
    ensures same_reference { tx.new.conn.ghost_name ≡ tx.old.conn.ghost_name }
    ensures survives { Survives (state S.Store tx.old.conn.now) (state S.Store tx.new.conn.now) (λ _. ⊥) }
    ensures kept { HasCleanDisk (state S.Store tx.new.conn.now) → KeepsCommit (state S.Store tx.old.conn.now) (state S.Store tx.new.conn.now) }
    ensures was_open { HasCleanDisk (state S.Store tx.new.conn.now) → OnOk result (IsTrue (state S.Store tx.old.conn.now).is_open) }
    ensures made { HasCleanDisk (state S.Store tx.new.conn.now) → IsTrue (state S.Store tx.old.conn.now).in_transaction → (state S.Store tx.old.conn.now).now.schema ≡ no_schema
        → IsDatabase (state S.Store tx.old.conn.now).now → OnOk result (IsTrue (state S.Store tx.new.conn.now).in_transaction × HoldJust (state S.Store tx.new.conn.now).now rows.now) }
    ensures utf8 { OnOk result (HaveUtf8 rows.now) }
{
    define(tx, 0, NEWEST_SCHEMA)?;
    put_each(alloc, tx, rows)
}

/// Makes the tables and the indexes of the schema of this number in an empty database.
pub(crate) fn make_schema<S: Alter>(conn: &mut Connection<S>, schema: u32) -> Result<(), OpenFault>
    requires { schema ≤ newest }
    ensures made { HasCleanDisk (state S.Store conn.new) → (state S.Store conn.old).now.schema ≡ no_schema → OnOk result ((state S.Store conn.new).now.schema ≡ schema_at schema) }
{
    if !conn.is_autocommit() {
        return Err(OpenFault::Unavailable(Cause::Broken(Invariant::NoTransaction)));
    }
    let mut tx = conn.transaction();
    define(&mut tx, 0, schema)?;
    tx.commit()?;
    Ok(())
}

/// Makes the tables with these rows, put in order, in a database that is empty: all of them or nothing. Each text of
/// the rows is in UTF-8. A database that is not empty stays as it is, also over a stop.
pub fn create<S: Alter>(
    alloc: Global,
    conn: &mut Connection<S>,
    rows: &[RowChange],
) -> Result<(), OpenFault>
    ensures was_open { HasCleanDisk (state S.Store conn.new) → IsTrue (state S.Store conn.new).is_open → IsTrue (state S.Store conn.old).is_open }
    ensures open { HasCleanDisk (state S.Store conn.new) → OnOk result (IsTrue (state S.Store conn.new).is_open) }
    ensures idle { OnOk result ((state S.Store conn.new).in_transaction ≡ false) }
    ensures empty { OnOk result ((state S.Store conn.old).now.schema ≡ no_schema) }
    ensures made { HasCleanDisk (state S.Store conn.new) → OnOk result (HoldJust (state S.Store conn.new).committed rows.now) }
    ensures utf8 { OnOk result (HaveUtf8 rows.now) }
    ensures rest { HasCleanDisk (state S.Store conn.new) → OnOk result ((state S.Store conn.new).now ≡ (state S.Store conn.new).committed) }
    ensures taken { IfErr result (λ e. e ≡ OpenFault.NotTables → (state S.Store conn.old).now.schema ≢ no_schema) }
    ensures never_bad { IfErr result (λ e. e ≢ OpenFault.BadRow) }
    ensures never_old { IfErr result (λ e. (n : ℕ) → e ≢ OpenFault.OldSchema n) }
    ensures neither { HasCleanDisk (state S.Store conn.new) → IsTrue (state S.Store conn.new).is_open
        → OnErr result (((state S.Store conn.new).now ≡ (state S.Store conn.old).now) × ((state S.Store conn.new).committed ≡ (state S.Store conn.old).committed)) }
    ensures crash { Survives (state S.Store conn.old) (state S.Store conn.new)
        (λ trees. ((state S.Store conn.old).now.schema ≡ no_schema) × HaveUtf8 rows.now × (db : _) × HoldJust db rows.now × (trees ≡ db.trees)) }
{
    if !conn.is_autocommit() {
        return Err(OpenFault::Unavailable(Cause::Broken(Invariant::NoTransaction)));
    }
    if !is_empty(conn) {
        return Err(OpenFault::NotTables);
    }
    let mut tx = conn.transaction();
    make_tables(alloc, &mut tx, rows)?;
    tx.commit()?;
    Ok(())
}
