//! How many rows each table has.

ghost use Rattle.std.specs.Prelude.{◌≡◌, length, IfOk};
ghost use Rattle.sqlite.specs.Held.{state};
ghost use Rattle.sched_book.specs.Desk.{counts as counts_in};
ghost use Rattle.table_meaning.specs.Reads.{Reads};
ghost use Rattle.table_desk.specs.Asked.{LooksUp};

use sched_book::{Counts, Unavailable};
use sqlite::{Alter, Connection};
use std::alloc::Global;
use table_rows::{CountedTable, last_number};

/// How many rows each table has. Numbers run from 1 without a gap, so it is the last number of each. What the
/// connection shows is unchanged.
pub fn counts<S: Alter>(alloc: Global, conn: &mut Connection<S>) -> Result<Counts, Unavailable>
    ensures reads { Reads (state S.Store conn.old) (state S.Store conn.new) }
    ensures answer { LooksUp S.Store conn.old conn.new (λ w. IfOk result (λ r. r ≡ counts_in w)) }
{
    let accounts = last_number(alloc, conn, CountedTable::Account)?;
    let apps = last_number(alloc, conn, CountedTable::App)?;
    let versions = last_number(alloc, conn, CountedTable::Version)?;
    let workunits = last_number(alloc, conn, CountedTable::Unit)?;
    let hosts = last_number(alloc, conn, CountedTable::Host)?;
    Ok(Counts {
        accounts,
        apps,
        versions,
        workunits,
        hosts,
    })
}
