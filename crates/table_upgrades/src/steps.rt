//! Upgrades tables from one schema to the next, each step in one transaction.

ghost use Rattle.std.specs.Prelude.{◌≡◌, ◌≢◌, ◌+◌, ◌-◌, ℕ, false, Some, IsTrue, IfOk, IfErr, OnOk, OnErr};
ghost use Rattle.sqlite.specs.Held.{state};
ghost use Rattle.sqlite.specs.State.{HasCleanDisk, KeepsCommit, Survives};
ghost use Rattle.table_meaning.specs.Schema.{newest, schema_at, stored_schema};
ghost use Rattle.table_meaning.specs.Schemas.{IsSchema, IsEarlier, AreKnownAt, AreEarlier, schema_setting};
ghost use Rattle.table_meaning.specs.Rows.{whole as sql_whole};
ghost use Rattle.table_meaning.specs.Upgrades.{PutsSchema, MakesNext, Goes, IsLeftFrom, StopsBetween, Upgrades, IsLeftBehind, StaysOrUpgrades};
ghost use Rattle.table_rows.specs.Refusing.{SparesSchema};
ghost use Rattle.table_upgrades.specs.Frames.{IsAllCommitted, OutsideTransaction, StaysWithin, WithinTransaction};

use crate::fills::fill_tables;
use sqlite::types::ValueRef;
use sqlite::{Alter, Connection, Error, Transaction};
use std::alloc::Global;
use table_meaning::tables::NEWEST_SCHEMA;
use table_rows::definitions::define;
use table_rows::schemas::{says_schema, schema_number};
use table_rows::statements::PUT_SETTING;
use table_rows::values::whole;
use table_rows::{Cause, Invariant, OpenFault, test_open};

/// Puts the row that names the schema of the tables.
fn put_schema<S: Alter>(tx: &mut Transaction<'_, S>, schema: u32) -> Result<(), Error>
    requires { IsSchema schema }
    ensures within { WithinTransaction S.Store tx.old.conn tx.new.conn }
    ensures inside { OnOk result (StaysWithin S.Store tx.old.conn tx.new.conn) }
    ensures puts { HasCleanDisk (state S.Store tx.new.conn.now) → IsTrue (state S.Store tx.old.conn.now).in_transaction
        → OnOk result (PutsSchema schema (state S.Store tx.old.conn.now).now (state S.Store tx.new.conn.now).now) }
{
    tx.execute(
        PUT_SETTING,
        &[ValueRef::Text("schema".as_bytes()), whole(schema)],
    )?;
    Ok(())
}

/// Makes the tables that the next schema has and this one lacks, fills them, and puts the row of the schema last.
fn upgrade_tables<S: Alter>(
    alloc: Global,
    tx: &mut Transaction<'_, S>,
    schema: u32,
) -> Result<(), OpenFault>
    requires { IsEarlier schema }
    ensures within { WithinTransaction S.Store tx.old.conn tx.new.conn }
    ensures kept { HasCleanDisk (state S.Store tx.new.conn.now) → KeepsCommit (state S.Store tx.old.conn.now) (state S.Store tx.new.conn.now) }
    ensures makes { HasCleanDisk (state S.Store tx.new.conn.now) → IsTrue (state S.Store tx.old.conn.now).in_transaction
        → OnOk result (MakesNext schema (state S.Store tx.old.conn.now).now (state S.Store tx.new.conn.now).now) }
    ensures was_open { HasCleanDisk (state S.Store tx.new.conn.now) → OnOk result (IsTrue (state S.Store tx.old.conn.now).is_open) }
    ensures inside { HasCleanDisk (state S.Store tx.new.conn.now) → OnOk result (IsTrue (state S.Store tx.new.conn.now).in_transaction) }
    ensures fault { IfErr result SparesSchema }
{
    define(tx, schema, schema + 1)?;
    fill_tables(alloc, tx, schema)?;
    put_schema(tx, schema + 1)?;
    Ok(())
}

/// Makes tables of the schema of this number into those of the next: everything or nothing.
fn upgrade_step<S: Alter>(
    alloc: Global,
    conn: &mut Connection<S>,
    schema: u32,
) -> Result<(), OpenFault>
    requires { IsEarlier schema }
    ensures outside { OutsideTransaction (state S.Store conn.old) (state S.Store conn.new) }
    ensures committed { HasCleanDisk (state S.Store conn.new) → OnOk result (IsAllCommitted (state S.Store conn.new)) }
    ensures makes { HasCleanDisk (state S.Store conn.new) → OnOk result (MakesNext schema (state S.Store conn.old).now (state S.Store conn.new).committed) }
    ensures neither { HasCleanDisk (state S.Store conn.new) → IsTrue (state S.Store conn.new).is_open
        → OnErr result (((state S.Store conn.new).now ≡ (state S.Store conn.old).now) × ((state S.Store conn.new).committed ≡ (state S.Store conn.old).committed)) }
    ensures crash { Survives (state S.Store conn.old) (state S.Store conn.new)
        (λ trees. IsTrue (state S.Store conn.old).is_open × (db : _) × MakesNext schema (state S.Store conn.old).now db × (trees ≡ db.trees)) }
    ensures fault { IfErr result SparesSchema }
{
    if !conn.is_autocommit() {
        return Err(OpenFault::Unavailable(Cause::Broken(Invariant::NoTransaction)));
    }
    let mut tx = conn.transaction();
    upgrade_tables(alloc, &mut tx, schema)?;
    tx.commit().map_err(OpenFault::from)
}

/// Makes tables of the schema of this number into those of the newest, one schema after another.
fn upgrade_from<S: Alter>(
    alloc: Global,
    conn: &mut Connection<S>,
    schema: u32,
) -> Result<(), OpenFault>
    requires { IsEarlier schema }
    ensures outside { OutsideTransaction (state S.Store conn.old) (state S.Store conn.new) }
    ensures committed { HasCleanDisk (state S.Store conn.new) → OnOk result (IsAllCommitted (state S.Store conn.new)) }
    ensures goes { HasCleanDisk (state S.Store conn.new) → OnOk result (Goes schema (newest - schema) (state S.Store conn.old).now (state S.Store conn.new).committed) }
    ensures neither { HasCleanDisk (state S.Store conn.new) → IsTrue (state S.Store conn.new).is_open → OnErr result (StopsBetween schema (state S.Store conn.old) (state S.Store conn.new)) }
    ensures crash { Survives (state S.Store conn.old) (state S.Store conn.new)
        (λ trees. IsTrue (state S.Store conn.old).is_open × (db : _) × IsLeftFrom schema (state S.Store conn.old).now db × (trees ≡ db.trees)) }
    ensures fault { IfErr result SparesSchema }
{
    for next in schema..NEWEST_SCHEMA {
        upgrade_step(alloc, conn, next)?;
    }
    Ok(())
}

/// Makes tables of an earlier schema into those of the newest one, with what they hold, and returns the newest schema's
/// number. It does one schema after another, each of them completely or not at all. Tables of the newest schema stay as
/// they are. `NotTables` if the tables are those of no schema, or name another schema. A refusal leaves the tables as
/// they were, or whole tables of a later schema that were made from them. A stop at any moment leaves what a stop could
/// leave before, or whole tables of a later schema.
pub fn upgrade<S: Alter>(alloc: Global, conn: &mut Connection<S>) -> Result<u32, OpenFault>
    ensures outside { OutsideTransaction (state S.Store conn.old) (state S.Store conn.new) }
    ensures committed { HasCleanDisk (state S.Store conn.new) → OnOk result (IsAllCommitted (state S.Store conn.new)) }
    ensures number { IfOk result (λ n. n ≡ newest) }
    ensures of_schema { OnOk result ((n : ℕ) × IsSchema n × ((state S.Store conn.old).now.schema ≡ schema_at n)) }
    ensures upgrades { HasCleanDisk (state S.Store conn.new) → OnOk result (Upgrades (state S.Store conn.old).now (state S.Store conn.new).committed) }
    ensures said { HasCleanDisk (state S.Store conn.new) → OnOk result ((n : ℕ) → IsEarlier n → AreKnownAt n (state S.Store conn.old).now → schema_setting (state S.Store conn.old).now.trees ≡ Some (sql_whole n)) }
    ensures newest { HasCleanDisk (state S.Store conn.new) → (state S.Store conn.old).now.schema ≡ stored_schema
        → OnOk result (((state S.Store conn.new).now ≡ (state S.Store conn.old).now) × ((state S.Store conn.new).committed ≡ (state S.Store conn.old).committed)) }
    ensures taken { HasCleanDisk (state S.Store conn.new) → IfErr result (λ e. e ≡ OpenFault.NotTables
        → ((state S.Store conn.old).now.schema ≢ stored_schema) × ((n : ℕ) → ¬ AreEarlier n (state S.Store conn.old).now)) }
    ensures never_old { IfErr result (λ e. (n : ℕ) → e ≢ OpenFault.OldSchema n) }
    ensures neither { HasCleanDisk (state S.Store conn.new) → IsTrue (state S.Store conn.new).is_open → OnErr result (StaysOrUpgrades (state S.Store conn.old) (state S.Store conn.new)) }
    ensures crash { Survives (state S.Store conn.old) (state S.Store conn.new)
        (λ trees. IsTrue (state S.Store conn.old).is_open × (db : _) × IsLeftBehind (state S.Store conn.old).now db × (trees ≡ db.trees)) }
{
    if !conn.is_autocommit() {
        return Err(OpenFault::Unavailable(Cause::Broken(Invariant::NoTransaction)));
    }
    let Some(schema) = schema_number(alloc, conn)? else {
        return Err(OpenFault::NotTables);
    };
    if schema == NEWEST_SCHEMA {
        test_open(conn)?;
        return Ok(schema);
    }
    if !says_schema(conn, schema)? {
        return Err(OpenFault::NotTables);
    }
    upgrade_from(alloc, conn, schema)?;
    Ok(NEWEST_SCHEMA)
}
