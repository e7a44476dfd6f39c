//! The schema of a connection's tables, from their definitions and from the row that names it.

ghost use Rattle.std.specs.Prelude.{◌≡◌, ◌≢◌, ℕ, Some, None, slice_get, option_map, IfOk, IfErr, IfSome};
ghost use Rattle.std.specs.Bool.{Decides};
ghost use Rattle.sqlite_value.specs.Order.{column};
ghost use Rattle.sqlite.specs.Held.{state};
ghost use Rattle.sqlite.specs.State.{HasCleanDisk};
ghost use Rattle.table_meaning.specs.Schema.{schema_at};
ghost use Rattle.table_meaning.specs.Schemas.{IsSchema, AreKnownAt, schema_setting};
ghost use Rattle.table_meaning.specs.Rows.{whole as sql_whole};
ghost use Rattle.table_meaning.specs.Reads.{Reads};
ghost use Rattle.table_rows.specs.Refusing.{IsUnavailable};

use crate::alike::Alike;
use crate::definitions::make_schema;
use crate::fields::is_whole;
use crate::opening::OpenFault;
use crate::read::shown_by;
use sqlite::types::ValueRef;
use sqlite::{Alter, Connection, Error, Row};
use sqlite_schema::schema::Schema;
use std::alloc::Global;
use table_meaning::tables::NEWEST_SCHEMA;

/// The schema of this number.
fn wanted_schema(alloc: Global, schema: u32) -> Result<Schema, OpenFault>
    requires { IsSchema schema }
    ensures { IfOk result (λ made. made ≡ schema_at schema) }
{
    let mut conn = Connection::open_in_memory(alloc)?;
    make_schema(&mut conn, schema)?;
    let made = conn.schema().copy(alloc)?;
    Ok(made)
}

/// Whether the tables are those of the schema of this number.
fn has_schema<S: Alter>(alloc: Global, conn: &Connection<S>, schema: u32) -> Result<bool, OpenFault>
    requires { IsSchema schema }
    ensures has { IfOk result (λ has. Decides has ((state S.Store conn.now).now.schema ≡ schema_at schema)) }
    ensures unavailable { IfErr result IsUnavailable }
{
    match wanted_schema(alloc, schema) {
        Ok(wanted) => Ok(conn.schema().is_alike(&wanted)),
        Err(fault) => Err(OpenFault::Unavailable(fault.cause())),
    }
}

/// The number of the schema of the tables, if they have one. The newest schema is tried first.
pub fn schema_number<S: Alter>(
    alloc: Global,
    conn: &Connection<S>,
) -> Result<Option<u32>, OpenFault>
    ensures found { IfOk result (λ found. IfSome found (λ n. IsSchema n × ((state S.Store conn.now).now.schema ≡ schema_at n))) }
    ensures none { IfOk result (λ found. found ≡ None → (n : ℕ) → IsSchema n → (state S.Store conn.now).now.schema ≢ schema_at n) }
    ensures unavailable { IfErr result IsUnavailable }
{
    for newer in 0..NEWEST_SCHEMA {
        let schema = NEWEST_SCHEMA - newer;
        if has_schema(alloc, conn, schema)? {
            return Ok(Some(schema));
        }
    }
    Ok(None)
}

/// Whether the first of the rows has this number in its first column.
fn begins_with(rows: &[Row], number: u32) -> bool
    ensures { Decides result (option_map (λ row. column row 0) (slice_get rows.now 0) ≡ Some (sql_whole number)) }
{
    match rows.first() {
        Some(row) => is_whole(row, 0, number),
        None => false,
    }
}

/// Whether the tables' row `schema` has the number of this schema. What the connection shows is unchanged.
pub fn says_schema<S: Alter>(conn: &mut Connection<S>, schema: u32) -> Result<bool, Error>
    ensures reads { Reads (state S.Store conn.old) (state S.Store conn.new) }
    ensures said { HasCleanDisk (state S.Store conn.new) → IsSchema schema → AreKnownAt schema (state S.Store conn.old).now
        → IfOk result (λ said. Decides said (schema_setting (state S.Store conn.old).now.trees ≡ Some (sql_whole schema))) }
{
    let rows = shown_by(
        conn,
        "SELECT value FROM setting WHERE name = ?1 ORDER BY rowid",
        &[ValueRef::Text("schema".as_bytes())],
    )?;
    Ok(begins_with(rows.as_slice(), schema))
}
