//! The instances that workunits need.

ghost use Rattle.std.specs.Prelude.{◌≡◌, ◌++◌, Some, IfOk, IfErr, OnOk, ◌≤◌};
ghost use Rattle.sched_book.specs.Trusted.{Trusted};
ghost use Rattle.sched_book.specs.declared.cause.Cause.TheVariants.{Memory};
ghost use Rattle.call_working_set.specs.WorkingSets.{AreRising};
ghost use Rattle.quorum_credit.specs.Growing.{growth, all_growth};
ghost use Rattle.quorum_credit.specs.UnitStates.{growth_on};
ghost use Rattle.quorum_credit.specs.Settled.{new_instances};
ghost use Rattle.quorum_credit.specs.Settling.{AreUnitsInLimits, with_grown_among};

use crate::settlement::new_instances;
use call_working_set::{Draft, UnitState, put_all};
use sched_book::limits::MOST_INSTANCES;
use sched_book::{Cause, Edit, Edits, Instance, Invariant, Place, Unavailable};
use std::alloc::Global;
use texts::Listed;

/// How many further instances the workunit of a unit state is to get.
fn new_instances_on(unit_state: &UnitState) -> usize
    ensures { result ≡ new_instances unit_state.now.agreement unit_state.now.unit unit_state.now.present }
{
    new_instances(
        unit_state.decided_now().status,
        unit_state.unit(),
        unit_state.present(),
    )
}

/// Adds the instances that the workunit of a unit state is to get after those of others. Refused if these would be too
/// many.
#[tactic(auto, using(crate::proofs::FreshOnes::growth_steps))]
fn push_growth(more: &mut Edits, unit: u32, unit_state: &UnitState) -> Result<(), Unavailable>
    ensures grown { OnOk result (more.new ≡ more.old ++ growth_on unit (Some unit_state.now)) }
    ensures causes { unit_state.now.unit.max_total_results ≤ MOST_INSTANCES → IfErr result (λ u. u.0 ≡ Memory) }
{
    let instances = unit_state.present();
    let count = new_instances_on(unit_state);
    if count > MOST_INSTANCES - instances.len() {
        return Err(Unavailable(Cause::Spoiled(Invariant::Growth)));
    }
    let first = instances.len() as u32;
    let end = (instances.len() + count) as u32;
    for number in first..end {
        more.push(Edit::Instance {
            place: Place { unit, number },
            row: Instance::unsent(),
        })?;
    }
    Ok(())
}

/// Adds the instances that the workunit at a place is to get after those of others; none if there is no
/// workunit.
#[tactic(auto, using(crate::proofs::OnUnitStates::growth_steps))]
fn add_growth<S: Draft>(
    alloc: Global,
    working_set: &mut S,
    unit: u32,
    more: &mut Edits,
) -> Result<(), Unavailable>
    ensures reads { S.reads working_set.old working_set.new }
    ensures answer { Trusted S.Units working_set.old working_set.new (OnOk result (more.new ≡ more.old ++ growth (S.world working_set.old) unit)) }
    ensures causes { Trusted S.Units working_set.old working_set.new (AreUnitsInLimits (S.world working_set.old) → IfErr result (S.may_fail working_set.old)) }
{
    working_set.read(alloc, unit)?;
    working_set.decide(unit);
    match working_set.unit_state(unit) {
        None => Ok(()),
        Some(unit_state) => push_growth(more, unit, unit_state),
    }
}

/// The new instances of these workunits: for each open one those that it lacks, with the next numbers.
fn growth_in_turn<S: Draft>(
    alloc: Global,
    working_set: &mut S,
    touched: &[u32],
) -> Result<Edits, Unavailable>
    ensures reads { S.reads working_set.old working_set.new }
    ensures answer { Trusted S.Units working_set.old working_set.new (IfOk result (λ more. more ≡ all_growth (S.world working_set.old) touched.now)) }
    ensures causes { Trusted S.Units working_set.old working_set.new (AreUnitsInLimits (S.world working_set.old) → IfErr result (S.may_fail working_set.old)) }
{
    let mut more = Listed::new(alloc);
    for unit in touched {
        add_growth(alloc, working_set, *unit, &mut more)?;
    }
    Ok(more)
}

/// Gives these workunits the instances that they need, in the working set of a call.
pub(crate) fn grow_on<S: Draft>(
    alloc: Global,
    working_set: &mut S,
    touched: &[u32],
) -> Result<(), Unavailable>
    ensures works { S.works working_set.old working_set.new }
    ensures grown { Trusted S.Units working_set.old working_set.new (OnOk result (AreRising touched.now →
        S.world working_set.new ≡ with_grown_among touched.now (S.world working_set.old))) }
    ensures edits { Trusted S.Units working_set.old working_set.new (OnOk result (
        S.edits working_set.new ≡ S.edits working_set.old ++ all_growth (S.world working_set.old) touched.now)) }
    ensures causes { Trusted S.Units working_set.old working_set.new (AreUnitsInLimits (S.world working_set.old) → IfErr result (S.may_fail working_set.old)) }
{
    let more = growth_in_turn(alloc, working_set, touched)?;
    put_all(alloc, working_set, more.as_slice())?;
    Ok(())
}
