//! The workunits of a user.

ghost use Rattle.std.specs.Prelude.{◌≡◌, ◌||◌, ℕ, IfOk, OnOk};
ghost use Rattle.std.specs.BTreeSet.{contains};
ghost use Rattle.std.specs.Ordering.{nat_cmp};
ghost use Rattle.sqlite.specs.Held.{state};
ghost use Rattle.sched_book.specs.Desk.{units_of_user as units_had_by};
ghost use Rattle.sched_book.specs.Grant.{has_unit};
ghost use Rattle.table_meaning.specs.Reads.{Reads};
ghost use Rattle.table_desk.specs.Asked.{LooksUp};
ghost use Rattle.table_desk.specs.Users.{HasAdded};

use sched_book::{Place, Unavailable};
use sqlite::{Alter, Connection};
use std::alloc::Global;
use std::collections::BTreeSet;
use table_rows::{hosts_of_user, places_owned};
use texts::{Listed, Memory};

/// Adds the workunits of these places to the set.
fn add_units(units: &mut BTreeSet<u32>, places: &[Place]) -> Result<(), Memory>
    ensures { OnOk result ((unit : ℕ) → contains nat_cmp units.new unit ≡ (contains nat_cmp units.old unit || has_unit unit places.now)) }
{
    for place in places {
        units.insert(place.unit)?;
    }
    Ok(())
}

/// Adds to the set the workunits with some instance that was given to one of these hosts. What the connection shows is
/// unchanged.
fn add_units_of<S: Alter>(
    alloc: Global,
    conn: &mut Connection<S>,
    hosts: &[u32],
    units: &mut BTreeSet<u32>,
) -> Result<(), Unavailable>
    ensures reads { Reads (state S.Store conn.old) (state S.Store conn.new) }
    ensures answer { LooksUp S.Store conn.old conn.new (λ w. OnOk result (HasAdded w hosts.now units.old units.new)) }
{
    for host in hosts {
        let owned = places_owned(alloc, conn, *host)?;
        add_units(units, owned.as_slice())?;
    }
    Ok(())
}

/// The places of the workunits with some instance that was given to a host of the account, in order. What the
/// connection shows is unchanged.
pub fn units_of_user<S: Alter>(
    alloc: Global,
    conn: &mut Connection<S>,
    account: u32,
) -> Result<Listed<u32>, Unavailable>
    ensures reads { Reads (state S.Store conn.old) (state S.Store conn.new) }
    ensures answer { LooksUp S.Store conn.old conn.new (λ w. IfOk result (λ r. r ≡ units_had_by w account)) }
{
    let hosts = hosts_of_user(alloc, conn, account)?;
    let mut units = BTreeSet::new(alloc);
    add_units_of(alloc, conn, hosts.as_slice(), &mut units)?;
    Ok(Listed::of(units.iter().copied().collect(alloc)?))
}
