//! Instances whose deadline passed.

ghost use Rattle.std.specs.Prelude.{◌≡◌, IfOk, IfErr, OnOk, ◌<◌, IfSome, IsSome};
ghost use Rattle.std.specs.Option.{option_copied};
ghost use Rattle.sched_book.specs.Reports.{with_changed};
ghost use Rattle.sched_book.specs.Lost.{with_lapse};
ghost use Rattle.sched_book.specs.Limits.{most_instances};
ghost use Rattle.sched_book.specs.Trusted.{Trusted};
ghost use Rattle.sched_book.specs.declared.instance.Lapse.TheVariants as lapse;
ghost use Rattle.quorum_credit.specs.Late.{lapsed_at, IsHeldAt, AreHeldInTurn};
ghost use Rattle.quorum_credit.specs.UnitStates.{late_on};
ghost use Rattle.quorum_credit.specs.Limited.{FitWithin};

use call_working_set::{Draft, UnitState};
use sched_book::{Cause, Instance, Invariant, Lapse, Place, Unavailable, copy_of};
use std::alloc::Global;
use texts::Memory;

/// The instance of this number in a unit state, late, if a host holds it.
fn late_on(unit_state: Option<&UnitState>, number: u32) -> Result<Option<Instance>, Memory>
    ensures value { IfOk result (λ row. row ≡ late_on (option_copied unit_state.entry) number) }
    ensures there { IfOk result (λ row. IfSome row (λ _. IsSome (option_copied unit_state.entry) × (number < most_instances))) }
{
    let Some(unit_state) = unit_state else {
        return Ok(None);
    };
    match unit_state.present().get(number as usize) {
        Some(instance) if instance.is_held() => {
            let mut row = copy_of(instance)?;
            row.lapse = Some(Lapse::Late);
            Ok(Some(row))
        }
        _ => Ok(None),
    }
}

/// Puts the lapse of the instance at a place. Refused if no host holds it.
fn put_late<S: Draft>(alloc: Global, working_set: &mut S, place: Place) -> Result<(), Unavailable>
    ensures works { S.works working_set.old working_set.new }
    ensures put { Trusted S.Units working_set.old working_set.new (
        OnOk result (S.world working_set.new ≡ with_changed (with_lapse lapse.Late) (S.world working_set.old) place)) }
    ensures fits { Trusted S.Units working_set.old working_set.new (OnOk result (
        FitWithin (S.entry working_set.old) (S.edits working_set.old) → FitWithin (S.entry working_set.old) (S.edits working_set.new))) }
    ensures causes { Trusted S.Units working_set.old working_set.new (IsHeldAt (S.world working_set.old) place → IfErr result (S.may_fail working_set.old)) }
{
    working_set.read(alloc, place.unit)?;
    match late_on(working_set.unit_state(place.unit), place.number)? {
        None => Err(Unavailable(Cause::Broken(Invariant::LateInstance))),
        Some(row) => {
            working_set.put_instance(place, &row)?;
            Ok(())
        }
    }
}

/// Lets the instances at these places lapse late, in their order, in the working set of a call. Refused if no host
/// holds one of them.
///
/// # Errors
///
/// [`Unavailable`] if there is no memory or the desk is unavailable.
pub fn lapse_on<S: Draft>(
    alloc: Global,
    working_set: &mut S,
    places: &[Place],
) -> Result<(), Unavailable>
    ensures works { S.works working_set.old working_set.new }
    ensures lapsed { Trusted S.Units working_set.old working_set.new (
        OnOk result (S.world working_set.new ≡ lapsed_at (S.world working_set.old) places.now)) }
    ensures fits { Trusted S.Units working_set.old working_set.new (OnOk result (
        FitWithin (S.entry working_set.old) (S.edits working_set.old) → FitWithin (S.entry working_set.old) (S.edits working_set.new))) }
    ensures causes { Trusted S.Units working_set.old working_set.new (AreHeldInTurn (S.world working_set.old) places.now → IfErr result (S.may_fail working_set.old)) }
{
    for place in places {
        put_late(alloc, working_set, *place)?;
    }
    Ok(())
}
