//! A host that is given jobs becomes their owner, and their workunits take the classes of their versions.

ghost use Rattle.std.specs.Prelude.{◌≡◌, ℕ, IfOk, IfErr, OnOk, ◌<◌, IfSome, IsSome, All, ◌++◌, [], ◌∷◌};
ghost use Rattle.std.specs.Option.{option_copied};
ghost use Rattle.sched_book.specs.Step.{grant_one, granted};
ghost use Rattle.sched_book.specs.Trusted.{Trusted};
ghost use Rattle.sched_book.specs.Limits.{most_instances};
ghost use Rattle.sched_book.specs.Delta.{edited_one};
ghost use Rattle.sched_book.specs.Places.{instance_at};
ghost use Rattle.sched_book.specs.declared.delta.Edit.TheVariants as edit;
ghost use Rattle.call_working_set.specs.WorkingSets.{IsOfKnown};
ghost use Rattle.job_choice.specs.declared.granted.Granted.{Granted};
ghost use Rattle.job_choice.specs.Chosen.{places_of};
ghost use Rattle.sched_machine.specs.Granting.{given_on, with_classes, AreThere, CanTake, FitWithHost};

use call_working_set::{Draft, UnitState};
use job_choice::Granted;
use sched_book::{Cause, Instance, Invariant, Moment, Owner, Place, Unavailable, copy_of};
use std::alloc::Global;
use texts::Memory;

/// The instance of this number in a unit state, given to a host at a moment; none if there is no instance.
fn given_on(
    unit_state: Option<&UnitState>,
    number: u32,
    host: u32,
    now: Moment,
) -> Result<Option<Instance>, Memory>
    ensures value { IfOk result (λ row. row ≡ given_on (option_copied unit_state.entry) number host now) }
    ensures there { IfOk result (λ row. IfSome row (λ _. IsSome (option_copied unit_state.entry) × (number < most_instances))) }
{
    let Some(unit_state) = unit_state else {
        return Ok(None);
    };
    let Some(instance) = unit_state.present().get(number as usize) else {
        return Ok(None);
    };
    let mut row = copy_of(instance)?;
    row.owner = Some(Owner {
        host,
        sent: now,
        deadline: now.seconds() + u64::from(unit_state.unit().delay_bound),
    });
    Ok(Some(row))
}

/// Gives the instance at a place to a host. Refused if there is no instance.
fn give_one<S: Draft>(
    alloc: Global,
    working_set: &mut S,
    host: u32,
    now: Moment,
    place: Place,
) -> Result<(), Unavailable>
    ensures works { S.works working_set.old working_set.new }
    ensures left { Trusted S.Units working_set.old working_set.new (
        OnOk result (S.world working_set.new ≡ grant_one host now (S.world working_set.old) place)) }
    ensures fits { Trusted S.Units working_set.old working_set.new (OnOk result (
        FitWithHost (S.entry working_set.old) host (S.edits working_set.old) → FitWithHost (S.entry working_set.old) host (S.edits working_set.new))) }
    ensures causes { Trusted S.Units working_set.old working_set.new (IsSome (instance_at (S.world working_set.old) place) → IfErr result (S.may_fail working_set.old)) }
{
    working_set.read(alloc, place.unit)?;
    match given_on(working_set.unit_state(place.unit), place.number, host, now)? {
        None => Err(Unavailable(Cause::Spoiled(Invariant::GrantedInstance))),
        Some(row) => {
            working_set.put_instance(place, &row)?;
            Ok(())
        }
    }
}

/// Makes a host the owner of these jobs, in their order. Refused if there is no instance at a place.
fn own_all<S: Draft>(
    alloc: Global,
    working_set: &mut S,
    host: u32,
    now: Moment,
    jobs: &[Granted],
) -> Result<(), Unavailable>
    ensures works { S.works working_set.old working_set.new }
    ensures left { Trusted S.Units working_set.old working_set.new (
        OnOk result (S.world working_set.new ≡ granted (S.world working_set.old) host now (places_of jobs.now))) }
    ensures fits { Trusted S.Units working_set.old working_set.new (OnOk result (
        FitWithHost (S.entry working_set.old) host (S.edits working_set.old) → FitWithHost (S.entry working_set.old) host (S.edits working_set.new))) }
    ensures causes { Trusted S.Units working_set.old working_set.new (AreThere (S.world working_set.old) (places_of jobs.now) → IfErr result (S.may_fail working_set.old)) }
{
    for job in jobs {
        give_one(alloc, working_set, host, now, job.place)?;
    }
    Ok(())
}

/// Grants the version of a job for its workunit. If it is marked and has no class, it takes that of the version.
fn take_class<S: Draft>(
    alloc: Global,
    working_set: &mut S,
    job: &Granted,
) -> Result<(), Unavailable>
    ensures works { S.works working_set.old working_set.new }
    ensures put { Trusted S.Units working_set.old working_set.new (
        OnOk result (S.world working_set.new ≡ edited_one (S.world working_set.old) (edit.Class job.now.place.unit job.now.version.class))) }
    ensures edits { OnOk result (S.edits working_set.new ≡ S.edits working_set.old ++ edit.Class job.now.place.unit job.now.version.class ∷ []) }
    ensures causes { Trusted S.Units working_set.old working_set.new (IsOfKnown (S.world working_set.old) (edit.Class job.now.place.unit job.now.version.class) → IfErr result (S.may_fail working_set.old)) }
{
    working_set.read(alloc, job.place.unit)?;
    working_set.put_class(job.place.unit, &job.version.class)?;
    Ok(())
}

/// Grants the versions of these jobs for their workunits, in their order. A workunit that is marked and has no class
/// takes that of the first version.
fn take_classes<S: Draft>(
    alloc: Global,
    working_set: &mut S,
    jobs: &[Granted],
) -> Result<(), Unavailable>
    ensures works { S.works working_set.old working_set.new }
    ensures left { Trusted S.Units working_set.old working_set.new (
        OnOk result (S.world working_set.new ≡ with_classes (S.world working_set.old) jobs.now)) }
    ensures fits { Trusted S.Units working_set.old working_set.new (OnOk result ((host : ℕ) → CanTake (S.entry working_set.old) jobs.now →
        FitWithHost (S.entry working_set.old) host (S.edits working_set.old) → FitWithHost (S.entry working_set.old) host (S.edits working_set.new))) }
    ensures causes { Trusted S.Units working_set.old working_set.new (All (λ (j : Granted). IsOfKnown (S.world working_set.old) (edit.Class j.place.unit j.version.class)) jobs.now → IfErr result (S.may_fail working_set.old)) }
{
    for job in jobs {
        take_class(alloc, working_set, job)?;
    }
    Ok(())
}

/// Gives these jobs to a host in the working set of its call. The host becomes their owner, and then their workunits
/// take the classes of their versions. Refused if there is no instance at a place.
pub(crate) fn give<S: Draft>(
    alloc: Global,
    working_set: &mut S,
    host: u32,
    now: Moment,
    jobs: &[Granted],
) -> Result<(), Unavailable>
    ensures works { S.works working_set.old working_set.new }
    ensures left { Trusted S.Units working_set.old working_set.new (OnOk result (
        S.world working_set.new ≡ with_classes (granted (S.world working_set.old) host now (places_of jobs.now)) jobs.now)) }
    ensures fits { Trusted S.Units working_set.old working_set.new (OnOk result (CanTake (S.entry working_set.old) jobs.now →
        FitWithHost (S.entry working_set.old) host (S.edits working_set.old) → FitWithHost (S.entry working_set.old) host (S.edits working_set.new))) }
    ensures causes { Trusted S.Units working_set.old working_set.new (AreThere (S.world working_set.old) (places_of jobs.now) → IfErr result (S.may_fail working_set.old)) }
{
    own_all(alloc, working_set, host, now, jobs)?;
    take_classes(alloc, working_set, jobs)?;
    Ok(())
}
