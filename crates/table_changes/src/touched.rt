//! What the edits of a call state touch.

ghost use Rattle.std.specs.Prelude.{◌≡◌, ◌||◌, ℕ, false, None, is_some, IfOk, OnOk};
ghost use Rattle.std.specs.BTreeMap.{get};
ghost use Rattle.std.specs.BTreeSet.{contains};
ghost use Rattle.std.specs.Ordering.{nat_cmp};
ghost use Rattle.call_working_set.specs.WorkingSets.{is_among};
ghost use Rattle.table_changes.specs.Touching.{AreTouched, HaveAll};

use crate::tallies::{Tallies, tallies_of};
use call_working_set::CallState;
use sched_book::Unavailable;
use std::alloc::Global;
use std::collections::{BTreeMap, BTreeSet};
use texts::{Listed, Memory};

/// The places of the workunits and the numbers of the hosts whose rows may have changed, and what the hosts have from
/// these workunits.
#[derive(Drop)]
pub(crate) struct Touched {
    pub units: Listed<u32>,
    pub hosts: Listed<u32>,
    pub tallies: Tallies,
}

/// The numbers at which a map has an entry.
fn numbers_of<V>(alloc: Global, map: &BTreeMap<u32, V>) -> Result<Vec<u32>, Memory>
    ensures { IfOk result (λ numbers. (n : ℕ) → is_some (get nat_cmp map.now n) ≡ is_among numbers.items n) }
{
    map.keys().copied().collect(alloc)
}

/// Puts the numbers into the set.
fn put_numbers(set: &mut BTreeSet<u32>, numbers: &[u32]) -> Result<(), Memory>
    ensures { OnOk result ((n : ℕ) → contains nat_cmp set.new n ≡ (is_among numbers.now n || contains nat_cmp set.old n)) }
{
    for number in numbers {
        set.insert(*number)?;
    }
    Ok(())
}

/// The numbers of the hosts that are in the call state, or have a tally.
fn hosts_of(alloc: Global, call_state: &CallState, tallies: &Tallies) -> Result<Listed<u32>, Memory>
    ensures { IfOk result (HaveAll call_state.now tallies.now) }
{
    let mut hosts = BTreeSet::new(alloc);
    put_numbers(&mut hosts, numbers_of(alloc, &call_state.hosts)?.as_slice())?;
    put_numbers(&mut hosts, numbers_of(alloc, &tallies.before)?.as_slice())?;
    put_numbers(&mut hosts, numbers_of(alloc, &tallies.present)?.as_slice())?;
    Ok(Listed::of(hosts.iter().copied().collect(alloc)?))
}

/// What the edits of the call state touch.
pub(crate) fn touched_by(alloc: Global, call_state: &CallState) -> Result<Touched, Unavailable>
    ensures { IfOk result (AreTouched call_state.now) }
{
    let units = Listed::of(call_state.units(alloc)?);
    let tallies = tallies_of(alloc, call_state, units.as_slice())?;
    let hosts = hosts_of(alloc, call_state, &tallies)?;
    Ok(Touched {
        units,
        hosts,
        tallies,
    })
}
