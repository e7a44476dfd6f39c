//! What each host holds and its credit, counted over the workunits that a call touched.

ghost use Rattle.std.specs.Prelude.{◌≡◌, ◌==◌, ℕ, if◌then◌else◌, IfOk, OnOk};
ghost use Rattle.std.specs.BTreeMap.{get};
ghost use Rattle.std.specs.Option.{option_copied};
ghost use Rattle.std.specs.Ordering.{nat_cmp};
ghost use Rattle.sched_book.specs.Count.{verdict_by, is_valid};
ghost use Rattle.call_working_set.specs.WorkingSets.{book_before, book_now};
ghost use Rattle.table_worlds.specs.Totals.{more, with_instance, with_instances};
ghost use Rattle.table_changes.specs.Tallies.{tally, held_on, credit_on, AreTallies};

use call_working_set::{CallState, UnitState};
use sched_book::count::{is_valid, verdict_by};
use sched_book::{Agreement, Instance, Unavailable, Workunit};
use std::alloc::Global;
use std::collections::BTreeMap;
use table_worlds::Total;
use texts::Memory;

/// What each host has from the touched workunits, by its number: before the call, and now.
#[derive(Drop)]
pub(crate) struct Tallies {
    pub before: BTreeMap<u32, Total>,
    pub present: BTreeMap<u32, Total>,
}

/// What was counted for a host.
pub(crate) fn tally(totals: &BTreeMap<u32, Total>, host: u32) -> Total
    ensures { result ≡ tally totals.now host }
{
    match totals.get(&host) {
        None => Total { held: 0, credit: 0 },
        Some(total) => *total,
    }
}

/// Adds `held` held instances and `credit` millicredits to a host.
fn count_more(
    totals: &mut BTreeMap<u32, Total>,
    host: u32,
    held: u32,
    credit: u64,
) -> Result<(), Unavailable>
    ensures { OnOk result ((n : ℕ) → tally totals.new n ≡ (if host == n then more (tally totals.old n) held credit else tally totals.old n)) }
{
    let total = tally(totals, host).plus(held, credit)?;
    totals.insert(host, total).map_err(Memory::from)?;
    Ok(())
}

/// Counts an instance that earned `credit` millicredits, if it was sent to a host. One that is not held and earned nothing
/// counts for nobody.
fn count_instance(
    totals: &mut BTreeMap<u32, Total>,
    instance: &Instance,
    credit: u64,
) -> Result<(), Unavailable>
    ensures { OnOk result ((host : ℕ) → tally totals.new host ≡ with_instance instance.now credit host (tally totals.old host)) }
{
    let is_held = instance.is_held();
    match instance.owner_host() {
        Some(host) if is_held || 0 < credit => {
            count_more(totals, host, u32::from(is_held), credit)
        }
        Some(_) | None => Ok(()),
    }
}

/// What an instance of the workunit earned, in millicredits.
fn earned(unit: &Workunit, valid: bool) -> u64
    ensures { result ≡ (if valid then unit.now.credit else 0) }
{
    if valid { u64::from(unit.credit) } else { 0 }
}

/// Counts the instances of a workunit, by the number of the canonical result.
fn count_instances(
    totals: &mut BTreeMap<u32, Total>,
    agreement: &Agreement,
    unit: &Workunit,
    canonical: Option<usize>,
    instances: &[Instance],
) -> Result<(), Unavailable>
    ensures { OnOk result ((host : ℕ) → tally totals.new host
        ≡ with_instances (λ x. is_valid (verdict_by agreement.now instances.now canonical x)) unit.now.credit instances.now host (tally totals.old host)) }
{
    for instance in instances {
        let valid = is_valid(verdict_by(agreement, instances, canonical, instance));
        count_instance(totals, instance, earned(unit, valid))?;
    }
    Ok(())
}

/// Counts the workunit of a unit state, as it was before the call and as it is now.
fn count_unit_state(
    tallies: &mut Tallies,
    unit_state: Option<&UnitState>,
) -> Result<(), Unavailable>
    ensures before { OnOk result ((host : ℕ) → tally tallies.new.before host
        ≡ more (tally tallies.old.before host) (held_on book_before host (option_copied unit_state.entry)) (credit_on book_before host (option_copied unit_state.entry))) }
    ensures present { OnOk result ((host : ℕ) → tally tallies.new.present host
        ≡ more (tally tallies.old.present host) (held_on book_now host (option_copied unit_state.entry)) (credit_on book_now host (option_copied unit_state.entry))) }
{
    let Some(unit_state) = unit_state else {
        return Ok(());
    };
    let agreement = unit_state.agreement();
    count_instances(
        &mut tallies.before,
        &agreement,
        unit_state.unit(),
        unit_state.decided_before().canonical,
        unit_state.before(),
    )?;
    count_instances(
        &mut tallies.present,
        &agreement,
        unit_state.unit(),
        unit_state.decided_now().canonical,
        unit_state.present(),
    )
}

/// What each host has from the workunits at these places of the call state.
pub(crate) fn tallies_of(
    alloc: Global,
    call_state: &CallState,
    units: &[u32],
) -> Result<Tallies, Unavailable>
    ensures { IfOk result (AreTallies (get nat_cmp call_state.now.unit_states) units.now) }
{
    let mut tallies = Tallies {
        before: BTreeMap::new(alloc),
        present: BTreeMap::new(alloc),
    };
    for unit in units {
        count_unit_state(&mut tallies, call_state.unit_state(*unit))?;
    }
    Ok(tallies)
}
