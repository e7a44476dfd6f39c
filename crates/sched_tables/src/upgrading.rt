//! Upgrades of tables from an older schema to the newest one.

ghost use Rattle.std.specs.Prelude.{◌≡◌, ◌≢◌, ℕ, false, Some, IsTrue, IfOk, IfErr, OnOk, OnErr};
ghost use Rattle.sqlite.specs.Held.{state};
ghost use Rattle.sqlite.specs.State.{HasCleanDisk, Survives};
ghost use Rattle.table_meaning.specs.Schema.{newest, schema_at, stored_schema};
ghost use Rattle.table_meaning.specs.Schemas.{IsSchema, IsEarlier, AreKnownAt, AreEarlier, schema_setting};
ghost use Rattle.table_meaning.specs.Rows.{whole as sql_whole};
ghost use Rattle.table_meaning.specs.Upgrades.{UpgradesWorld, IsLeftBehindWorld, StaysOrGoesWorld};

use sqlite::{Alter, Connection};
use std::alloc::Global;
use table_rows::OpenFault;

/// The statements that make the tables of the first schema, for tests that make files of that schema.
pub const SCHEMA_1: &str =
    "CREATE TABLE setting (name TEXT NOT NULL PRIMARY KEY, value ANY NOT NULL) STRICT;
CREATE TABLE account (id INTEGER PRIMARY KEY, auth TEXT NOT NULL UNIQUE, name TEXT NOT NULL) STRICT;
CREATE TABLE app (id INTEGER PRIMARY KEY, name TEXT NOT NULL UNIQUE, agreement INTEGER) STRICT;
CREATE TABLE version (id INTEGER PRIMARY KEY, app_id INTEGER NOT NULL REFERENCES app, platform TEXT NOT NULL, num INTEGER NOT NULL, UNIQUE (app_id, platform, num)) STRICT;
CREATE TABLE unit (id INTEGER PRIMARY KEY, name TEXT NOT NULL UNIQUE, app_id INTEGER NOT NULL REFERENCES app, min_quorum INTEGER NOT NULL, target_nresults INTEGER NOT NULL, max_error_results INTEGER NOT NULL, max_total_results INTEGER NOT NULL, max_success_results INTEGER NOT NULL, delay_bound INTEGER NOT NULL, rsc_fpops_est INTEGER NOT NULL, rsc_memory_bound INTEGER NOT NULL, rsc_disk_bound INTEGER NOT NULL, credit INTEGER NOT NULL, status INTEGER NOT NULL) STRICT;
CREATE TABLE host (id INTEGER PRIMARY KEY, account_id INTEGER NOT NULL REFERENCES account, cpid TEXT NOT NULL, platforms TEXT NOT NULL, fpops INTEGER NOT NULL, memory INTEGER NOT NULL, disk INTEGER NOT NULL, quota INTEGER NOT NULL, held INTEGER NOT NULL, credit INTEGER NOT NULL, UNIQUE (account_id, cpid)) STRICT;
CREATE TABLE instance (unit_id INTEGER NOT NULL REFERENCES unit, num INTEGER NOT NULL, host_id INTEGER REFERENCES host, sent INTEGER, deadline INTEGER, lapse INTEGER NOT NULL, outcome INTEGER, output TEXT, place INTEGER, queued INTEGER NOT NULL, PRIMARY KEY (unit_id, num)) STRICT;
CREATE TABLE kept (host_id INTEGER PRIMARY KEY REFERENCES host, seqno INTEGER NOT NULL, text TEXT NOT NULL, reply TEXT NOT NULL) STRICT;
CREATE TABLE batch (kind TEXT NOT NULL, name TEXT NOT NULL, text BLOB NOT NULL, answer TEXT NOT NULL, PRIMARY KEY (kind, name)) STRICT;
CREATE INDEX instance_queue ON instance (queued, unit_id, num);
CREATE INDEX instance_owner ON instance (host_id, unit_id, num);
CREATE INDEX instance_sent ON instance (host_id, sent);
CREATE INDEX instance_deadline ON instance (deadline);";

/// Upgrades tables of an older schema to the newest one, and returns the newest schema's number. Each step from one
/// schema to the next is a transaction of its own, and copies one row at a time. Each call that the first schema keeps
/// goes into the first slot of its host. The class of each version becomes its platform, and no workunit is marked.
/// Tables of the newest schema stay as they are. A stop at any moment leaves what a stop could leave before, or whole
/// tables of a later schema.
///
/// # Errors
///
/// `NotTables` if the tables are those of no schema, or if their row `schema` does not have the number of theirs.
/// `BadRow` if a row that is copied has a number out of its range. `Unavailable` if memory or the disk failed. The
/// tables are then as they were, or have become those of a later schema.
pub fn upgrade<S: Alter>(alloc: Global, conn: &mut Connection<S>) -> Result<u32, OpenFault>
    ensures was_open { HasCleanDisk (state S.Store conn.new) → IsTrue (state S.Store conn.new).is_open → IsTrue (state S.Store conn.old).is_open }
    ensures open { HasCleanDisk (state S.Store conn.new) → OnOk result (IsTrue (state S.Store conn.new).is_open) }
    ensures idle { (state S.Store conn.old).in_transaction ≡ false → (state S.Store conn.new).in_transaction ≡ false }
    ensures number { IfOk result (λ n. n ≡ newest) }
    ensures of_schema { OnOk result ((n : ℕ) × IsSchema n × ((state S.Store conn.old).now.schema ≡ schema_at n)) }
    ensures upgrades { HasCleanDisk (state S.Store conn.new) → OnOk result (UpgradesWorld (state S.Store conn.old).now (state S.Store conn.new).committed) }
    ensures said { HasCleanDisk (state S.Store conn.new) → OnOk result ((n : ℕ) → IsEarlier n → AreKnownAt n (state S.Store conn.old).now → schema_setting (state S.Store conn.old).now.trees ≡ Some (sql_whole n)) }
    ensures newest { HasCleanDisk (state S.Store conn.new) → (state S.Store conn.old).now.schema ≡ stored_schema
        → OnOk result (((state S.Store conn.new).now ≡ (state S.Store conn.old).now) × ((state S.Store conn.new).committed ≡ (state S.Store conn.old).committed)) }
    ensures rest { HasCleanDisk (state S.Store conn.new) → OnOk result ((state S.Store conn.new).now ≡ (state S.Store conn.new).committed) }
    ensures taken { HasCleanDisk (state S.Store conn.new) → IfErr result (λ e. e ≡ OpenFault.NotTables
        → ((state S.Store conn.old).now.schema ≢ stored_schema) × ((n : ℕ) → ¬ AreEarlier n (state S.Store conn.old).now)) }
    ensures never_old { IfErr result (λ e. (n : ℕ) → e ≢ OpenFault.OldSchema n) }
    ensures neither { HasCleanDisk (state S.Store conn.new) → IsTrue (state S.Store conn.new).is_open → OnErr result (StaysOrGoesWorld (state S.Store conn.old) (state S.Store conn.new)) }
    ensures crash { Survives (state S.Store conn.old) (state S.Store conn.new)
        (λ trees. IsTrue (state S.Store conn.old).is_open × (db : _) × IsLeftBehindWorld (state S.Store conn.old).now db × (trees ≡ db.trees)) }
{
    table_upgrades::upgrade(alloc, conn)
}
