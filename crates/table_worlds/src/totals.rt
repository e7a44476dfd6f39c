//! How many instances each host holds, and its credit.

ghost use Rattle.std.specs.Prelude.{◌≡◌, ◌≤◌, length, replicate, if◌then◌else◌, IfOk, OnOk};
ghost use Rattle.sched_book.specs.Count.{verdict_by, is_valid};
ghost use Rattle.sched_book.specs.Numbered.{map_from};
ghost use Rattle.sched_book.specs.Reports.{modify_nth};
ghost use Rattle.table_worlds.specs.Totals.{more, with_instance, with_unit};

use sched_book::count::{agreement_by, canonical, is_valid, verdict_by};
use sched_book::limits::MOST_INSTANCES;
use sched_book::{Agreement, App, Cause, Instance, Invariant, Unavailable, UnitBook};
use std::alloc::Global;
use texts::Memory;

/// The counted columns of a host.
#[derive(Clone, Copy)]
pub struct Total {
    /// How many instances it holds.
    pub held: u32,
    /// Its credit, in millicredits.
    pub credit: u64,
}

impl Total {
    /// Adds `held` held instances and `credit` millicredits. `Unavailable` if a sum does not fit. That can't happen in
    /// a world whose tables are within their limits: it has at most 20 million instances and 2 * 10^15 millicredits.
    pub fn plus(self, held: u32, credit: u64) -> Result<Total, Unavailable>
        ensures { IfOk result (λ total. total ≡ more self held credit) }
    {
        match (self.held.checked_add(held), self.credit.checked_add(credit)) {
            (Some(held), Some(credit)) => Ok(Total { held, credit }),
            _ => Err(Unavailable(Cause::Broken(Invariant::SumOfTotals))),
        }
    }
}

/// Adds `held` held instances and `credit` millicredits to the host of a number, if it exists.
fn count_more(totals: &mut [Total], host: u32, held: u32, credit: u64) -> Result<(), Unavailable>
    ensures { OnOk result (totals.new ≡ modify_nth (λ t. more t held credit) totals.old host) }
{
    if host == 0 {
        return Ok(());
    }
    let index = host as usize - 1;
    if index < totals.len() {
        let total = totals[index];
        totals[index] = total.plus(held, credit)?;
    }
    Ok(())
}

/// Counts an instance that earned `credit` millicredits, if it was sent to a host.
fn count_instance(totals: &mut [Total], instance: &Instance, credit: u64) -> Result<(), Unavailable>
    ensures { OnOk result (totals.new ≡ map_from 1 (with_instance instance.now credit) totals.old) }
{
    match instance.owner_host() {
        None => Ok(()),
        Some(host) => count_more(totals, host, u32::from(instance.is_held()), credit),
    }
}

/// What an instance of a workunit earned, by the index of the canonical result.
fn earned(
    agreement: &Agreement,
    book: &UnitBook,
    canonical: Option<usize>,
    instance: &Instance,
) -> u64
    ensures { result ≡ (if is_valid (verdict_by agreement.now book.now.instances canonical instance.now) then book.now.unit.credit else 0) }
{
    if is_valid(verdict_by(agreement, book.instances.as_slice(), canonical, instance)) {
        u64::from(book.unit.credit)
    } else {
        0
    }
}

/// Counts the instances of a workunit. `Unavailable` if it has more instances than it may have.
pub fn count_unit(totals: &mut [Total], apps: &[App], book: &UnitBook) -> Result<(), Unavailable>
    ensures { OnOk result (totals.new ≡ map_from 1 (with_unit apps.now book.now) totals.old) }
{
    let instances = book.instances.as_slice();
    if MOST_INSTANCES < instances.len() {
        return Err(Unavailable(Cause::Broken(Invariant::CountedInstances)));
    }
    let agreement = agreement_by(apps, book.unit.app.as_str());
    let canonical = canonical(&agreement, &book.unit, instances);
    for instance in instances {
        count_instance(
            totals,
            instance,
            earned(&agreement, book, canonical, instance),
        )?;
    }
    Ok(())
}

/// Makes the totals of `count` hosts, with nothing counted yet.
pub fn no_totals(alloc: Global, count: usize) -> Result<Vec<Total>, Memory>
    ensures { IfOk result (λ totals. totals.items ≡ replicate count (record { held = 0; credit = 0 })) }
{
    let mut totals = Vec::new(alloc);
    for _ in 0..count {
        totals.push(Total { held: 0, credit: 0 })?;
    }
    Ok(totals)
}
