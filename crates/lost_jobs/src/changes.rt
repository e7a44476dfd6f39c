//! What the fates of lost jobs change.

ghost use Rattle.std.specs.Prelude.{◌≡◌, ◌<◌, ◌++◌, [], All, fold, filter_map, IfOk, IfErr, IfSome, IsSome, OnOk};
ghost use Rattle.std.specs.List.{cons_option};
ghost use Rattle.std.specs.Option.{option_copied};
ghost use Rattle.sched_book.specs.Limits.{most_instances};
ghost use Rattle.sched_book.specs.Trusted.{Trusted};
ghost use Rattle.call_working_set.specs.WorkingSets.{IsOfKnown};
ghost use Rattle.lost_jobs.specs.Fated.{fated, with_fate, fate_change, AreByPlace};
ghost use Rattle.lost_jobs.specs.UnitStates.{change_on};

use crate::fates::Fate;
use call_working_set::{Draft, UnitState, put_all};
use sched_book::{Edit, Edits, Instance, Lapse, Owner, Unavailable};
use std::alloc::Global;
use texts::{Listed, Memory};

/// The instance after its fate: sent again with this deadline, or dropped.
fn fated(resent: Option<u64>, instance: &Instance) -> Result<Instance, Memory>
    ensures { IfOk result (λ row. row ≡ fated resent instance.now) }
{
    let mut row = instance.clone()?;
    match resent {
        None => row.lapse = Some(Lapse::Dropped),
        Some(deadline) => row.owner = row.owner.map(|owner| Owner { deadline, ..owner }),
    }
    Ok(row)
}

/// What a fate changes in a unit state; nothing if there is no instance.
fn change_on(unit_state: Option<&UnitState>, fate: Fate) -> Result<Option<Edit>, Memory>
    ensures value { IfOk result (λ change. change ≡ change_on (option_copied unit_state.entry) fate) }
    ensures there { IfOk result (λ change. IfSome change (λ _. fate.place.number < most_instances)) }
{
    let place = fate.place;
    let Some(unit_state) = unit_state else {
        return Ok(None);
    };
    match unit_state.present().get(place.number as usize) {
        None => Ok(None),
        Some(instance) => Ok(Some(Edit::Instance {
            place,
            row: fated(fate.resent, instance)?,
        })),
    }
}

/// Adds what a fate changes after the other edits; nothing if there is no instance.
#[tactic(auto, using(crate::proofs::OnUnitStates::change_steps))]
fn add_change<S: Draft>(
    alloc: Global,
    working_set: &mut S,
    fate: Fate,
    more: &mut Edits,
) -> Result<(), Unavailable>
    ensures reads { S.reads working_set.old working_set.new }
    ensures answer { Trusted S.Units working_set.old working_set.new (
        OnOk result (more.new ≡ more.old ++ cons_option (fate_change (S.world working_set.old) fate) [])) }
    ensures known { Trusted S.Units working_set.old working_set.new (
        OnOk result (IfSome (fate_change (S.world working_set.old) fate) (IsOfKnown (S.world working_set.old)))) }
    ensures causes { Trusted S.Units working_set.old working_set.new (IfErr result (S.may_fail working_set.old)) }
{
    working_set.read(alloc, fate.place.unit)?;
    let change = change_on(working_set.unit_state(fate.place.unit), fate)?;
    more.push_some(change)?;
    Ok(())
}

/// What these fates change, in their order.
fn changes_of<S: Draft>(
    alloc: Global,
    working_set: &mut S,
    fates: &[Fate],
) -> Result<Edits, Unavailable>
    ensures reads { S.reads working_set.old working_set.new }
    ensures answer { Trusted S.Units working_set.old working_set.new (
        IfOk result (λ changes. changes ≡ filter_map (fate_change (S.world working_set.old)) fates.now)) }
    ensures known { Trusted S.Units working_set.old working_set.new (
        IfOk result (λ changes. All (IsOfKnown (S.world working_set.old)) changes)) }
    ensures causes { Trusted S.Units working_set.old working_set.new (IfErr result (S.may_fail working_set.old)) }
{
    let mut more = Listed::new(alloc);
    for fate in fates {
        add_change(alloc, working_set, *fate, &mut more)?;
    }
    Ok(more)
}

/// Puts what these fates change in the working set of a call. Two fates of one place must be the same.
///
/// # Errors
///
/// [`Unavailable`] if there is no memory or the desk is unavailable.
pub fn put_fates<S: Draft>(
    alloc: Global,
    working_set: &mut S,
    fates: &[Fate],
) -> Result<(), Unavailable>
    ensures works { S.works working_set.old working_set.new }
    ensures put { Trusted S.Units working_set.old working_set.new (
        OnOk result (AreByPlace fates.now → S.world working_set.new ≡ fold with_fate (S.world working_set.old) fates.now)) }
    ensures edits { Trusted S.Units working_set.old working_set.new (
        OnOk result (S.edits working_set.new ≡ S.edits working_set.old ++ filter_map (fate_change (S.world working_set.old)) fates.now)) }
    ensures causes { Trusted S.Units working_set.old working_set.new (IfErr result (S.may_fail working_set.old)) }
{
    let changes = changes_of(alloc, working_set, fates)?;
    put_all(alloc, working_set, changes.as_slice())?;
    Ok(())
}
