//! Places of instances, by what became of them.

ghost use Rattle.std.specs.Prelude.{◌≡◌, ◌≤◌, ◌+◌, ◌*◌, pos, [], length, IfOk, IfSome};
ghost use Rattle.sqlite.specs.Held.{state};
ghost use Rattle.sched_book.specs.Places.{held_by as held_in, owned_by as owned_in, overdue as overdue_in, sent_on_day as sent_in};
ghost use Rattle.table_meaning.specs.Reads.{Reads};
ghost use Rattle.table_desk.specs.Asked.{LooksUp};

use sched_book::moment::DAY;
use sched_book::{Cause, Invariant, Place, Unavailable};
use sqlite::{Alter, Connection};
use std::alloc::Global;
use table_rows::{places_due, places_held, places_owned, sent_between};
use texts::Listed;

/// The seconds of a day, in the type of the columns that hold moments.
const DAY_SECONDS: i64 = DAY as i64;

/// The first moment of a day, and that of the next day.
fn bounds_of(day: u64) -> Option<(i64, i64)>
    ensures { IfSome result (λ r. (r.0 ≡ pos (day * 86400)) × (r.1 ≡ pos (day * 86400 + 86400))) }
{
    let from = i64::try_from(day).ok()?.checked_mul(DAY_SECONDS)?;
    Some((from, from.checked_add(DAY_SECONDS)?))
}

/// The places of the instances that the host holds, in order, if it holds at most `most`. The time it takes grows with
/// the number of instances that were sent to the host after the oldest of these. What the connection shows is
/// unchanged.
pub fn held_by<S: Alter>(
    alloc: Global,
    conn: &mut Connection<S>,
    host: u32,
    most: u32,
) -> Result<Listed<Place>, Unavailable>
    ensures reads { Reads (state S.Store conn.old) (state S.Store conn.new) }
    ensures answer { LooksUp S.Store conn.old conn.new (λ w. length (held_in w host) ≤ most → IfOk result (λ r. r ≡ held_in w host)) }
{
    Ok(places_held(alloc, conn, host, most)?)
}

/// The places of the instances that were given to the host, in order. What the connection shows is unchanged.
pub fn owned_by<S: Alter>(
    alloc: Global,
    conn: &mut Connection<S>,
    host: u32,
) -> Result<Listed<Place>, Unavailable>
    ensures reads { Reads (state S.Store conn.old) (state S.Store conn.new) }
    ensures answer { LooksUp S.Store conn.old conn.new (λ w. IfOk result (λ r. r ≡ owned_in w host)) }
{
    Ok(places_owned(alloc, conn, host)?)
}

/// How many of the host's instances were sent on this day. What the connection shows is unchanged.
pub fn sent_on_day<S: Alter>(
    alloc: Global,
    conn: &mut Connection<S>,
    host: u32,
    day: u64,
) -> Result<u32, Unavailable>
    ensures reads { Reads (state S.Store conn.old) (state S.Store conn.new) }
    ensures answer { LooksUp S.Store conn.old conn.new (λ w. IfOk result (λ r. r ≡ sent_in w host day)) }
{
    let Some((from, until)) = bounds_of(day) else {
        return Err(Unavailable(Cause::Broken(Invariant::BoundsOfDay)));
    };
    Ok(sent_between(alloc, conn, host, from, until)?)
}

/// The places of the held instances whose deadline is before the moment `now`, in order, if none has its deadline
/// before the moment `from`. Both are in seconds since 1970-01-01T00:00:00Z. The time it takes grows with the number of
/// deadlines between the two. What the connection shows is unchanged.
pub fn due_before<S: Alter>(
    alloc: Global,
    conn: &mut Connection<S>,
    from: u64,
    now: u64,
) -> Result<Listed<Place>, Unavailable>
    ensures reads { Reads (state S.Store conn.old) (state S.Store conn.new) }
    ensures answer { LooksUp S.Store conn.old conn.new (λ w. overdue_in w from ≡ [] → IfOk result (λ r. r ≡ overdue_in w now)) }
{
    let Ok(from) = i64::try_from(from) else {
        return Err(Unavailable(Cause::Broken(Invariant::BoundsOfDeadline)));
    };
    let Ok(until) = i64::try_from(now) else {
        return Err(Unavailable(Cause::Broken(Invariant::BoundsOfDeadline)));
    };
    Ok(places_due(alloc, conn, from, until)?)
}
