//! Whether a connection is open, for any tables.

ghost use Rattle.std.specs.Prelude.{◌≡◌, IsTrue, IfErr, OnOk};
ghost use Rattle.sqlite.specs.Held.{state};
ghost use Rattle.sqlite.specs.State.{HasCleanDisk};
ghost use Rattle.table_meaning.specs.Reads.{Reads};

use sqlite::{Alter, Connection, Error, ErrorCode};

/// A statement that is valid in every schema.
const ANY_STATEMENT: &str = "SELECT 1";

/// Compiles a statement and does not run it. A connection compiles only while no fault of the disk has shut it.
///
/// # Errors
///
/// `Closed` if the connection is shut. Another error, such as out of memory, does not say whether it is.
pub fn test_open<S: Alter>(conn: &mut Connection<S>) -> Result<(), Error>
    ensures reads { Reads (state S.Store conn.old) (state S.Store conn.new) }
    ensures open { HasCleanDisk (state S.Store conn.new) → OnOk result (IsTrue (state S.Store conn.new).is_open) }
    ensures shut { HasCleanDisk (state S.Store conn.new) → IfErr result (λ e. e ≡ Error.SqliteFailure ErrorCode.Closed → ¬ IsTrue (state S.Store conn.new).is_open) }
{
    let _statement = conn.prepare(ANY_STATEMENT)?;
    Ok(())
}
