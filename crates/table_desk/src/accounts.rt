//! Accounts and hosts, by their keys.

ghost use Rattle.std.specs.Prelude.{◌≡◌, IfOk, IfSome};
ghost use Rattle.sqlite.specs.Held.{state};
ghost use Rattle.sched_book.specs.Desk.{account_by_key as account_of_key};
ghost use Rattle.sched_book.specs.Limits.{IsAccountInLimits};
ghost use Rattle.sched_book.specs.Places.{known_host};
ghost use Rattle.table_meaning.specs.Reads.{Reads};
ghost use Rattle.table_desk.specs.Asked.{LooksUp};

use sched_book::{Account, Placed, Unavailable};
use sqlite::{Alter, Connection};
use std::alloc::Global;
use table_decoding::account;
use table_rows::{account_with, host_known};

/// The account with this authenticator. For any rows, it is unavailable if the row has a value out of its range. What
/// the connection shows is unchanged.
pub fn account_by_key<S: Alter>(
    alloc: Global,
    conn: &mut Connection<S>,
    authenticator: &str,
) -> Result<Option<Placed<Account>>, Unavailable>
    ensures reads { Reads (state S.Store conn.old) (state S.Store conn.new) }
    ensures answer { LooksUp S.Store conn.old conn.new (λ w. IfOk result (λ r. r ≡ account_of_key w authenticator.now)) }
    ensures limits { IfOk result (λ r. IfSome r (λ found. IsAccountInLimits found.row)) }
{
    match account_with(alloc, conn, authenticator)? {
        None => Ok(None),
        Some(found) => Ok(Some(Placed {
            place: found.id,
            row: account(&found)?,
        })),
    }
}

/// The number of the host that belongs to this account and has this name for itself. What the connection shows is
/// unchanged.
pub fn host_by_key<S: Alter>(
    alloc: Global,
    conn: &mut Connection<S>,
    account: u32,
    cpid: &str,
) -> Result<Option<u32>, Unavailable>
    ensures reads { Reads (state S.Store conn.old) (state S.Store conn.new) }
    ensures answer { LooksUp S.Store conn.old conn.new (λ w. IfOk result (λ r. r ≡ known_host w account cpid.now)) }
{
    Ok(host_known(alloc, conn, account, cpid)?)
}
