//! The places that hosts hold, as they were read, and moved since by each row of an instance.

ghost use Rattle.std.specs.Prelude.{◌≡◌, ℕ, None, Option, IfOk, IfSome, option_and_then, slice_get, ◌||◌};
ghost use Rattle.sched_book.specs.Places.{held_by, is_same};
ghost use Rattle.sched_book.specs.declared.instance.Instance.{Instance as Job};
ghost use Rattle.sched_book.specs.declared.world.World.{World};
ghost use Rattle.table_meaning.specs.Worlds.{SlotCalls};
ghost use Rattle.table_meaning.specs.declared.rows.StoredRow.TheVariants as stored;
ghost use Rattle.table_cache.specs.Carrying.{with_job, job_of};
ghost use Rattle.table_cache.specs.Holding.{holders_of, AreHeldOf, holder_of, with_holder};
ghost use Rattle.table_cache.specs.Remembering.{IsCacheOf};
ghost use Rattle.std.specs.Ordering.{nat_cmp};
ghost use Rattle.table_cache.specs.RowsRead.{HoldOfEach};
ghost use Rattle.sched_book.specs.declared.instance.Place.{Place as BookPlace};
ghost use Rattle.table_desk.specs.Sorted.{has, AreSorted};

use crate::cache::Cache;
use crate::rows_read::RowsRead;
use sched_book::{Instance, Place};
use std::alloc::Global;
use table_desk::{insert_place, remove_place};
use table_meaning::rows::StoredInstance;
use texts::{Listed, Memory};

/// The most places of a host that are remembered.
const MOST_HELD: usize = 1_000;

/// Whether there are too many places of a host to remember them.
fn are_too_many(places: &Listed<Place>) -> bool {
    MOST_HELD < places.len()
}

/// A copy of these places.
fn copied(alloc: Global, places: &Listed<Place>) -> Result<Listed<Place>, Memory>
    ensures { IfOk result (λ copy. copy ≡ places.now) }
{
    Ok(Listed::of(places.as_slice().to_vec(alloc)?))
}

/// The number of the host that holds an instance, if one does.
fn holder_in(instance: &Instance) -> Option<u32>
    ensures { result ≡ holder_of instance.now }
{
    if instance.is_held() {
        instance.owner_host()
    } else {
        None
    }
}

/// The number of the host that holds the instance of this number, if one does.
fn holder_at(instances: &[Instance], number: usize) -> Option<u32>
    ensures { result ≡ option_and_then holder_of (slice_get instances.now number) }
{
    match instances.get(number) {
        None => None,
        Some(instance) => holder_in(instance),
    }
}

/// The number of the host that holds the instance of a row, if one does.
fn holder_put(row: &StoredInstance) -> Option<u32>
    ensures { result ≡ holder_of (job_of (stored.Instance row.now)) }
{
    // A lapse of 1 is late, and one of 2 is dropped.
    if row.outcome.is_some() || row.lapse == 1 || row.lapse == 2 {
        return None;
    }
    row.host_id
}

/// The places of a host with one more. `None` if there are too many then, or no memory for it.
fn with_place(alloc: Global, known: Listed<Place>, place: Place) -> Option<Listed<Place>>
    ensures { AreSorted known → IfSome result (λ places. AreSorted places × ((p : BookPlace) → has places p ≡ (is_same place p || has known p))) }
{
    let mut places = known;
    if insert_place(alloc, &mut places, place).is_err() || are_too_many(&places) {
        return None;
    }
    Some(places)
}

/// Takes a place out of the list of the host that held it.
fn leave(alloc: Global, held: &mut RowsRead<u32, Listed<Place>>, holder: Option<u32>, place: Place)
    ensures { (holders : ℕ → ℕ → Option ℕ) → holders place.unit place.number ≡ holder
        → AreHeldOf holders held.old → AreHeldOf (with_holder holders place.unit place.number None) held.new }
{
    let Some(host) = holder else { return };
    let Some(known) = held.take(&host) else {
        return
    };
    let mut places = known;
    remove_place(alloc, &mut places, place);
    held.put(host, places);
}

/// Puts a place into the list of the host that holds it now. No host held it before.
fn enter(alloc: Global, held: &mut RowsRead<u32, Listed<Place>>, holder: Option<u32>, place: Place)
    ensures { (holders : ℕ → ℕ → Option ℕ) → holders place.unit place.number ≡ None
        → AreHeldOf holders held.old → AreHeldOf (with_holder holders place.unit place.number holder) held.new }
{
    let Some(host) = holder else { return };
    let Some(known) = held.take(&host) else {
        return
    };
    if let Some(places) = with_place(alloc, known, place) {
        held.put(host, places);
    }
}

/// Moves a place from the list of its old holder to that of its new one.
fn move_held(
    alloc: Global,
    held: &mut RowsRead<u32, Listed<Place>>,
    place: Place,
    old: Option<u32>,
    new: Option<u32>,
)
    ensures { (holders : ℕ → ℕ → Option ℕ) → holders place.unit place.number ≡ old
        → AreHeldOf holders held.old → AreHeldOf (with_holder holders place.unit place.number new) held.new }
{
    if old == new {
        return;
    }
    leave(alloc, held, old, place);
    enter(alloc, held, new, place);
}

/// Follows the row of an instance that was put. If the instances of its workunit are not known, all lists are forgotten.
pub(crate) fn follow_held(
    alloc: Global,
    held: &mut RowsRead<u32, Listed<Place>>,
    known: &RowsRead<u32, Listed<Instance>>,
    row: &StoredInstance,
)
    ensures { (jobs : ℕ → ℕ → Option Job) → HoldOfEach nat_cmp (λ unit xs. (number : ℕ) → slice_get xs number ≡ jobs unit number) known.now
        → AreHeldOf (holders_of jobs) held.old → AreHeldOf (holders_of (with_job jobs (stored.Instance row.now))) held.new }
{
    let Some(instances) = known.seen(&row.unit_id) else {
        held.forget_all();
        return;
    };
    let place = Place {
        unit: row.unit_id,
        number: row.num,
    };
    let old = holder_at(instances.as_slice(), row.num as usize);
    move_held(alloc, held, place, old, holder_put(row));
}

impl Cache {
    /// The places that this host holds, in order.
    pub fn held(&self, alloc: Global, host: u32) -> Result<Option<Listed<Place>>, Memory>
        ensures { (w : World) (calls : SlotCalls) → IsCacheOf w calls self.now → IfOk result (λ r. IfSome r (λ places. places ≡ held_by w host)) }
    {
        match self.held.seen(&host) {
            None => Ok(None),
            Some(places) => Ok(Some(copied(alloc, places)?)),
        }
    }

    /// Remembers the places that a host holds, if there are not too many, and there is memory for them.
    pub fn remember_held(&mut self, alloc: Global, host: u32, found: &Listed<Place>)
        ensures { (w : World) (calls : SlotCalls) → IsCacheOf w calls self.old → found.now ≡ held_by w host → IsCacheOf w calls self.new }
    {
        if are_too_many(found) {
            return;
        }
        if let Ok(places) = copied(alloc, found) {
            self.held.put(host, places);
        }
    }
}
