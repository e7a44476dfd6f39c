//! Hosts, each with what is counted of it.

ghost use Rattle.std.specs.Prelude.{◌≡◌, pos, IfOk, IfSome};
ghost use Rattle.sqlite.specs.Held.{state};
ghost use Rattle.sched_book.specs.Limits.{most_quota, IsHostInLimits};
ghost use Rattle.table_meaning.specs.Reads.{Reads};
ghost use Rattle.table_meaning.specs.Rows.{columns_of};
ghost use Rattle.table_meaning.specs.declared.rows.StoredRow.TheVariants as stored;
ghost use Rattle.table_worlds.specs.ReadBack.{host_in};
ghost use Rattle.table_desk.specs.Asked.{LooksUp};
ghost use Rattle.table_desk.specs.Columns.{counted_host_at};

use sched_book::{Cause, HostRow, Unavailable};
use sqlite::{Alter, Connection};
use std::alloc::Global;
use table_decoding::host;
use table_meaning::rows::StoredHost;
use table_rows::host_of;
use texts::Same;

/// A host, with what is counted of it.
#[derive(Clone, Drop)]
pub struct CountedHost {
    /// The host, as it last described itself.
    pub row: HostRow,
    /// How many instances it holds.
    pub held: u32,
    /// Its credit, in millicredits.
    pub credit: u64,
}

impl Same for CountedHost {
    ghost use Rattle.std.proofs.Common.{rules};

    ghost exact = { λ host copy is_copy. Prim.search rules };
}

/// The host of a row, with what the row counts of it.
fn counted(alloc: Global, row: &StoredHost) -> Result<CountedHost, Unavailable>
    ensures read { IfOk result (λ h. (h.row ≡ host_in (columns_of (stored.Host row.now))) × (h.held ≡ row.now.held) × (pos h.credit ≡ row.now.credit)) }
    ensures limits { IfOk result (λ h. IsHostInLimits most_quota h.row) }
{
    match u64::try_from(row.credit) {
        Err(_) => Err(Unavailable(Cause::BadRow)),
        Ok(credit) => Ok(CountedHost {
            row: host(alloc, row)?,
            held: row.held,
            credit,
        }),
    }
}

/// The host of this number, with what is counted of it. For any rows, it is unavailable if the row has a value out of
/// its range. What the connection shows is unchanged.
pub fn counted_host<S: Alter>(
    alloc: Global,
    conn: &mut Connection<S>,
    number: u32,
) -> Result<Option<CountedHost>, Unavailable>
    ensures reads { Reads (state S.Store conn.old) (state S.Store conn.new) }
    ensures answer { LooksUp S.Store conn.old conn.new (λ w. IfOk result (λ r. r ≡ counted_host_at w number)) }
    ensures limits { IfOk result (λ r. IfSome r (λ h. IsHostInLimits most_quota h.row)) }
{
    match host_of(alloc, conn, number)? {
        None => Ok(None),
        Some(row) => Ok(Some(counted(alloc, &row)?)),
    }
}
