//! Connections whose tables are the stored ones.

ghost use Rattle.std.specs.Prelude.{◌≡◌, ◌≢◌, ℕ, IfOk, IfErr, IfSome};
ghost use Rattle.std.specs.List.{AllByRecursion};
ghost use Rattle.sqlite_trees.specs.declared.store.Shape.TheVariants.{Table as TableTree};
ghost use Rattle.sqlite_trees.specs.View.{IsQuiet, IsShaped};
ghost use Rattle.sqlite.specs.Held.{Held, state};
ghost use Rattle.sqlite.specs.State.{HasCleanDisk, IsLive, Opens};
ghost use Rattle.table_meaning.specs.Schema.{stored_schema};
ghost use Rattle.table_meaning.specs.Schemas.{IsEarlier, AreKnownAt, AreEarlier};
ghost use Rattle.table_meaning.specs.Holding.{AreKnown};
ghost use Rattle.table_rows.specs.Refusing.{fault_of, given_back, refusal_for, rest_of, HasNoTransaction, IsRestOf};
ghost use Rattle.table_rows.specs.declared.opening.OpenRefusal.TheVariants as refused;

use crate::connection::test_open;
use crate::schemas::{says_schema, schema_number};
use sched_book::{Cause, Invariant, StorageFault, Unavailable};
use sqlite::{Alter, Connection, Error, ErrorCode};
use std::alloc::{AllocError, Global};
use std::fmt;
use table_meaning::tables::NEWEST_SCHEMA;

/// Why tables are refused.
#[derive(Clone, Copy, Debug, PartialEq, Eq)]
pub enum OpenFault {
    /// Its tables are not bsched's.
    NotTables,
    /// Its tables are those of an older schema with this number. They must be upgraded.
    OldSchema(u32),
    /// A row does not have the form of its table, or has a value out of range.
    BadRow,
    /// Something failed that says nothing of the tables, such as memory or the disk.
    Unavailable(Cause),
}

impl OpenFault {
    /// What failed.
    pub fn cause(self) -> Cause {
        match self {
            OpenFault::NotTables | OpenFault::OldSchema(_) => {
                Cause::Broken(Invariant::KnownSchema)
            }
            OpenFault::BadRow => Cause::BadRow,
            OpenFault::Unavailable(cause) => cause,
        }
    }
}

impl fmt::Display for OpenFault {
    fn fmt<W: fmt::Write>(&self, f: &mut fmt::Formatter<W>) -> fmt::Result {
        match self {
            OpenFault::NotTables => write!(f, "no stored tables"),
            OpenFault::OldSchema(schema) => write!(f, "tables of schema {schema}"),
            OpenFault::BadRow => write!(f, "a row is not that of a world"),
            OpenFault::Unavailable(_) => write!(f, "unavailable"),
        }
    }
}

impl std::error::Error for OpenFault {}

/// What failed, by an error of the SQLite library.
pub fn cause_of(error: Error) -> Cause {
    match error {
        Error::SqliteFailure(code) => cause_of_code(code),
        Error::InvalidColumnType(_, _) | Error::IntegralValueOutOfRange(_) | Error::Utf8Error(_) =>
            Cause::BadRow,
        _ => Cause::Storage(StorageFault::Statement),
    }
}

fn cause_of_code(code: ErrorCode) -> Cause {
    match code {
        ErrorCode::OutOfMemory => Cause::Memory,
        ErrorCode::DiskFull => Cause::Storage(StorageFault::DiskFull),
        ErrorCode::SystemIoFailure => Cause::Storage(StorageFault::InputOutput),
        ErrorCode::Closed => Cause::Storage(StorageFault::Closed),
        ErrorCode::DatabaseCorrupt => Cause::Storage(StorageFault::Corrupt),
        ErrorCode::NotADatabase => Cause::Storage(StorageFault::NotADatabase),
        ErrorCode::CannotOpen => Cause::Storage(StorageFault::CannotOpen),
        ErrorCode::DatabaseBusy => Cause::Storage(StorageFault::Busy),
        ErrorCode::TooBig => Cause::Storage(StorageFault::TooBig),
        ErrorCode::OperationInterrupted => Cause::Storage(StorageFault::Interrupted),
        ErrorCode::ConstraintViolation(_) => Cause::Storage(StorageFault::Constraint),
        _ => Cause::Storage(StorageFault::Statement),
    }
}

impl From<Error> for OpenFault {
    ghost use Rattle.table_rows.specs.Refusing.{IsUnavailable};

    ghost from_gives = { λ _ e. IsUnavailable e };

    fn from(error: Error) -> OpenFault {
        OpenFault::Unavailable(cause_of(error))
    }
}

impl From<AllocError> for OpenFault {
    ghost use Rattle.table_rows.specs.Refusing.{IsUnavailable};

    ghost from_gives = { λ _ e. IsUnavailable e };

    fn from(_: AllocError) -> OpenFault {
        OpenFault::Unavailable(Cause::Memory)
    }
}

impl From<Unavailable> for OpenFault {
    ghost use Rattle.table_rows.specs.Refusing.{IsUnavailable};

    ghost from_gives = { λ _ e. IsUnavailable e };

    fn from(unavailable: Unavailable) -> OpenFault {
        OpenFault::Unavailable(unavailable.0)
    }
}

impl From<OpenFault> for Unavailable {
    fn from(fault: OpenFault) -> Unavailable {
        Unavailable(fault.cause())
    }
}

/// Why a connection is refused.
#[derive(Drop)]
pub enum OpenRefusal<S: Alter> {
    /// Its tables are not bsched's. The connection was opened anew.
    NotTables(Connection<S>),
    /// Its tables are those of an older schema with this number. The connection was opened anew.
    OldSchema(u32, Connection<S>),
    /// A row does not have the form of its table, or has a value out of range. The connection was opened anew.
    BadRow(Connection<S>),
    /// Something failed that says nothing of the tables, such as memory or the disk. The store was under the connection.
    Unavailable(Cause, S),
}

impl<S: Alter + Drop> OpenRefusal<S> {
    /// The refusal of this connection for this fault. If memory or the disk failed, it has the store under the connection.
    pub fn of(fault: OpenFault, conn: Connection<S>) -> OpenRefusal<S>
        ensures given { (store : S) × (result ≡ refusal_for fault conn store) }
        ensures rest { IsQuiet S.Store.view S.Store.faults S.Store.recovers S.Store.is_shielded conn.store (rest_of result) }
    {
        match fault {
            OpenFault::NotTables => OpenRefusal::NotTables(conn),
            OpenFault::OldSchema(schema) => OpenRefusal::OldSchema(schema, conn),
            OpenFault::BadRow => OpenRefusal::BadRow(conn),
            OpenFault::Unavailable(cause) => OpenRefusal::Unavailable(cause, conn.into_store()),
        }
    }

    /// The fault for which the tables are refused.
    pub fn fault(&self) -> OpenFault
        ensures { result ≡ fault_of self.now }
    {
        match self {
            OpenRefusal::NotTables(_) => OpenFault::NotTables,
            OpenRefusal::OldSchema(schema, _) => OpenFault::OldSchema(*schema),
            OpenRefusal::BadRow(_) => OpenFault::BadRow,
            OpenRefusal::Unavailable(cause, _) => OpenFault::Unavailable(*cause),
        }
    }

    /// Gives the store back, which was under the connection. A stop leaves of it only what it could leave of the refusal.
    pub fn into_store(self) -> S
        ensures { IsQuiet S.Store.view S.Store.faults S.Store.recovers S.Store.is_shielded (rest_of self) result }
    {
        match self {
            OpenRefusal::NotTables(conn) => conn.into_store(),
            OpenRefusal::OldSchema(_, conn) => conn.into_store(),
            OpenRefusal::BadRow(conn) => conn.into_store(),
            OpenRefusal::Unavailable(_, store) => store,
        }
    }
}

impl<S: Alter + Drop> From<OpenRefusal<S>> for OpenFault {
    ghost use Rattle.std.specs.Prelude.{◌≡◌};
    ghost use Rattle.table_rows.specs.Refusing.{fault_of};

    ghost from_gives = { λ refused e. e ≡ fault_of refused };

    fn from(refused: OpenRefusal<S>) -> OpenFault {
        refused.fault()
    }
}

/// Opens the connection anew over its store, or gives the store back. What was not committed is gone, and the numbers of
/// each table's rows rise.
fn reopened<S: Alter + Drop>(alloc: Global, conn: Connection<S>) -> Result<Connection<S>, S>
    ensures opens { IfOk result (λ c. HasCleanDisk (state S.Store c) → Opens (state S.Store c) × IsLive (state S.Store c)) }
    ensures ordered { IfOk result (λ c. HasCleanDisk (state S.Store c)
        → AllByRecursion (λ t. IsShaped TableTree ((state S.Store c).now.trees t.tree)) (state S.Store c).now.schema.tables) }
    ensures same { IfOk result (λ c. HasCleanDisk (state S.Store c) → (state S.Store c).now ≡ (state S.Store conn).committed) }
    ensures clean { IfOk result (λ c. HasCleanDisk (state S.Store c) → HasCleanDisk (state S.Store conn)) }
    ensures rest { IfErr result (IsRestOf S.Store (state S.Store conn)) }
{
    let _schema = conn.schema();
    let store = conn.into_store();
    if store.is_broken() {
        return Err(store);
    }
    match Connection::over(alloc, store) {
        Ok(conn) => Ok(conn),
        Err((_error, store)) => Err(store),
    }
}

/// Why a connection with the tables of an earlier schema is refused: the row `schema` has that schema's number, or it
/// does not.
fn refusal<S: Alter + Drop>(conn: Connection<S>, schema: u32) -> OpenRefusal<S>
    requires { IsEarlier schema }
    ensures old { (n : ℕ) (c : Held S) → result ≡ refused.OldSchema n c → HasCleanDisk (state S.Store c)
        → HasCleanDisk (state S.Store conn) × (AreKnownAt schema (state S.Store conn).now → (n ≡ schema) × AreEarlier n (state S.Store conn).now) }
    ensures other { (c : Held S) → result ≡ refused.NotTables c → HasCleanDisk (state S.Store c) → HasCleanDisk (state S.Store conn) × ¬ AreEarlier schema (state S.Store conn).now }
    ensures fits { (c : Held S) → result ≢ refused.BadRow c }
    ensures back { IfSome (given_back result) (λ c. HasCleanDisk (state S.Store c) → HasCleanDisk (state S.Store conn) × (Opens (state S.Store conn) → HasNoTransaction (state S.Store conn).committed (state S.Store c))) }
    ensures rest { IsRestOf S.Store (state S.Store conn) (rest_of result) }
{
    let mut conn = conn;
    let is_said = match says_schema(&mut conn, schema) {
        Ok(is_said) => is_said,
        Err(error) => return OpenRefusal::Unavailable(cause_of(error), conn.into_store()),
    };
    if let Err(error) = test_open(&mut conn) {
        return OpenRefusal::Unavailable(cause_of(error), conn.into_store());
    }
    if is_said {
        OpenRefusal::OldSchema(schema, conn)
    } else {
        OpenRefusal::NotTables(conn)
    }
}

/// Returns the connection if its tables are the stored ones. It then has no open transaction and shows what was last
/// committed. If the tables are others, or those of an older schema, the refusal gives the connection back, also with
/// no open transaction. If memory or the disk failed, it gives the store back. The only row that is read is the one that
/// names the schema.
pub fn known<S: Alter + Drop>(
    alloc: Global,
    conn: Connection<S>,
) -> Result<Connection<S>, OpenRefusal<S>>
    ensures known { IfOk result (λ c. HasCleanDisk (state S.Store c) → AreKnown (state S.Store c).now) }
    ensures opens { IfOk result (λ c. HasCleanDisk (state S.Store c) → Opens (state S.Store c)) }
    ensures same { IfOk result (λ c. HasCleanDisk (state S.Store c) → (state S.Store c).now ≡ (state S.Store conn).committed) }
    ensures clean { IfOk result (λ c. HasCleanDisk (state S.Store c) → HasCleanDisk (state S.Store conn)) }
    ensures old { IfErr result (λ e. (n : ℕ) (c : Held S) → e ≡ refused.OldSchema n c → HasCleanDisk (state S.Store c) → AreEarlier n (state S.Store conn).committed) }
    ensures other { IfErr result (λ e. (c : Held S) → e ≡ refused.NotTables c → HasCleanDisk (state S.Store c) → (state S.Store conn).committed.schema ≢ stored_schema) }
    ensures neither { IfErr result (λ e. (c : Held S) → e ≡ refused.NotTables c → HasCleanDisk (state S.Store c) → (n : ℕ) → ¬ AreEarlier n (state S.Store conn).committed) }
    ensures fits { IfErr result (λ e. (c : Held S) → e ≢ refused.BadRow c) }
    ensures back { IfErr result (λ e. IfSome (given_back e) (λ c. HasCleanDisk (state S.Store c) → HasNoTransaction (state S.Store conn).committed (state S.Store c))) }
    ensures rest { IfErr result (λ e. IsRestOf S.Store (state S.Store conn) (rest_of e)) }
{
    let conn = match reopened(alloc, conn) {
        Ok(conn) => conn,
        Err(store) => {
            let cause = Cause::Storage(StorageFault::CannotOpen);
            return Err(OpenRefusal::Unavailable(cause, store));
        }
    };
    let found = match schema_number(alloc, &conn) {
        Ok(found) => found,
        Err(fault) => return Err(OpenRefusal::Unavailable(fault.cause(), conn.into_store())),
    };
    let Some(schema) = found else {
        return Err(OpenRefusal::NotTables(conn));
    };
    if schema < NEWEST_SCHEMA {
        return Err(refusal(conn, schema));
    }
    Ok(conn)
}
