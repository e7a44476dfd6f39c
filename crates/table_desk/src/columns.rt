//! What is counted of a workunit, read from its row, and of a user, read from the rows of the user's hosts. Also what
//! is counted of a host that has no row.

ghost use Rattle.std.specs.Prelude.{◌≡◌, [], length, sum_by, unsigned_abs, IfOk, OnOk};
ghost use Rattle.sqlite.specs.Held.{state};
ghost use Rattle.sched_book.specs.Desk.{unit_status};
ghost use Rattle.sched_book.specs.Places.{held_by as held_in, owned_by as owned_in, host_credit, user_credit};
ghost use Rattle.table_meaning.specs.Reads.{Reads};
ghost use Rattle.table_desk.specs.Asked.{LooksUp};

use sched_book::{Cause, Invariant, Status, Unavailable};
use sqlite::{Alter, Connection};
use std::alloc::Global;
use table_meaning::codes::status_of_code;
use table_rows::{credits_of_user, places_owned, status_of as status_column};

/// The status of the workunit at this place. What the connection shows is unchanged.
pub fn status_of<S: Alter>(
    alloc: Global,
    conn: &mut Connection<S>,
    unit: u32,
) -> Result<Option<Status>, Unavailable>
    ensures reads { Reads (state S.Store conn.old) (state S.Store conn.new) }
    ensures answer { LooksUp S.Store conn.old conn.new (λ w. IfOk result (λ r. r ≡ unit_status w unit)) }
{
    match status_column(alloc, conn, unit)? {
        None => Ok(None),
        Some(number) => match status_of_code(number) {
            None => Err(Unavailable(Cause::BadRow)),
            Some(status) => Ok(Some(status)),
        },
    }
}

/// Tests that the host was given no instance, as is so for a host with no row. Unavailable if it was given one. What
/// the connection shows is unchanged.
fn test_none_given<S: Alter>(
    alloc: Global,
    conn: &mut Connection<S>,
    host: u32,
) -> Result<(), Unavailable>
    ensures reads { Reads (state S.Store conn.old) (state S.Store conn.new) }
    ensures answer { LooksUp S.Store conn.old conn.new (λ w. OnOk result (owned_in w host ≡ [])) }
{
    let owned = places_owned(alloc, conn, host)?;
    if owned.len() > 0 {
        return Err(Unavailable(Cause::Broken(Invariant::HostWithoutRow)));
    }
    Ok(())
}

/// How many instances the host holds, if it was given none, as is so for a host with no row: 0. Unavailable if it was
/// given one. What the connection shows is unchanged.
pub fn held_of_none_given<S: Alter>(
    alloc: Global,
    conn: &mut Connection<S>,
    host: u32,
) -> Result<u32, Unavailable>
    ensures reads { Reads (state S.Store conn.old) (state S.Store conn.new) }
    ensures answer { LooksUp S.Store conn.old conn.new (λ w. IfOk result (λ r. r ≡ length (held_in w host))) }
{
    test_none_given(alloc, conn, host)?;
    Ok(0)
}

/// The millicredits of the host, if it was given no instance, as is so for a host with no row: 0. Unavailable if it was
/// given one. What the connection shows is unchanged.
pub fn credit_of_none_given<S: Alter>(
    alloc: Global,
    conn: &mut Connection<S>,
    host: u32,
) -> Result<u64, Unavailable>
    ensures reads { Reads (state S.Store conn.old) (state S.Store conn.new) }
    ensures answer { LooksUp S.Store conn.old conn.new (λ w. IfOk result (λ r. r ≡ host_credit w host)) }
{
    test_none_given(alloc, conn, host)?;
    Ok(0)
}

/// The sum of credits. Unavailable if one is below 0, or if the sum has more than 64 bits.
fn sum_of(credits: &[i64]) -> Result<u64, Unavailable>
    ensures { IfOk result (λ sum. sum ≡ sum_by unsigned_abs credits.now) }
{
    let mut sum: u64 = 0;
    for credit in credits {
        let Ok(credit) = u64::try_from(*credit) else {
            return Err(Unavailable(Cause::BadRow));
        };
        let Some(more) = sum.checked_add(credit) else {
            return Err(Unavailable(Cause::Broken(Invariant::ReadCreditOfUser)));
        };
        sum = more;
    }
    Ok(sum)
}

/// The millicredits of the user: the sum over the user's hosts. What the connection shows is unchanged.
pub fn credit_of_user<S: Alter>(
    alloc: Global,
    conn: &mut Connection<S>,
    account: u32,
) -> Result<u64, Unavailable>
    ensures reads { Reads (state S.Store conn.old) (state S.Store conn.new) }
    ensures answer { LooksUp S.Store conn.old conn.new (λ w. IfOk result (λ r. r ≡ user_credit w account)) }
{
    let credits = credits_of_user(alloc, conn, account)?;
    sum_of(credits.as_slice())
}
