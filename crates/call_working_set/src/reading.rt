//! What a call state asks of its desk.

ghost use Rattle.std.specs.Prelude.{◌≡◌, ◌≤◌, ◌+◌, ◌++◌, [], ◌∷◌, None, length, IfOk, IfErr, OnOk, OnErr, IfSome, IsSome};
ghost use Rattle.std.specs.BTreeMap.{get};
ghost use Rattle.std.specs.Ordering.{nat_cmp};
ghost use Rattle.sched_book.specs.Places.{host_at};
ghost use Rattle.sched_book.specs.Delta.{edited};
ghost use Rattle.sched_book.specs.Trusted.{Trusted};
ghost use Rattle.sched_book.specs.declared.delta.Edit.TheVariants as edit;
ghost use Rattle.call_working_set.specs.WorkingSets.{IsCallStateOf, IsReadAt, HasPlace};

use crate::call_state::CallState;
use crate::instances::Instances;
use crate::unit_state::UnitState;
use sched_book::{Cause, Desk, HostRow, Invariant, Unavailable, copy_of};
use std::alloc::Global;

/// Asks for a workunit, its application's agreement and its instances.
fn ask_unit_state<D: Desk>(
    alloc: Global,
    desk: &mut D,
    unit: u32,
) -> Result<Option<UnitState>, Unavailable>
    ensures reads { D.reads desk.old desk.new }
    ensures answer { Trusted D.Units desk.old desk.new (IfOk result (IsReadAt (D.world desk.old) (D.world desk.old) unit)) }
    ensures causes { Trusted D.Units desk.old desk.new (IfErr result (D.may_fail desk.old)) }
{
    let Some(row) = desk.unit(alloc, unit)? else {
        return Ok(None);
    };
    let Some(agreement) = desk.agreement_of(alloc, unit)? else {
        return Err(Unavailable(Cause::Spoiled(Invariant::AppOfUnit)));
    };
    let instances = Instances::of(desk.instances_of(alloc, unit)?);
    Ok(Some(UnitState::new(row, agreement, instances)?))
}

/// Reads a workunit into the call state, unless it is already there.
pub(crate) fn read_unit_state<D: Desk>(
    alloc: Global,
    desk: &mut D,
    call_state: &mut CallState,
    unit: u32,
) -> Result<(), Unavailable>
    ensures reads { D.reads desk.old desk.new }
    ensures call_state { Trusted D.Units desk.old desk.new (IsCallStateOf (D.world desk.old) call_state.old → IsCallStateOf (D.world desk.old) call_state.new) }
    ensures answer { Trusted D.Units desk.old desk.new (IsCallStateOf (D.world desk.old) call_state.old → OnOk result (
        IsReadAt (D.world desk.old) (edited (D.world desk.old) call_state.old.edits) unit (get nat_cmp call_state.new.unit_states unit))) }
    ensures edits { call_state.new.edits ≡ call_state.old.edits }
    ensures causes { Trusted D.Units desk.old desk.new (IfErr result (D.may_fail desk.old)) }
{
    if call_state.unit_state(unit).is_some() {
        return Ok(());
    }
    let Some(unit_state) = ask_unit_state(alloc, desk, unit)? else {
        return Ok(());
    };
    call_state.keep_unit_state(unit, unit_state)?;
    Ok(())
}

/// The host of this number, as it is now.
pub(crate) fn read_host<D: Desk>(
    alloc: Global,
    desk: &mut D,
    call_state: &mut CallState,
    number: u32,
) -> Result<Option<HostRow>, Unavailable>
    ensures reads { D.reads desk.old desk.new }
    ensures call_state { Trusted D.Units desk.old desk.new (IsCallStateOf (D.world desk.old) call_state.old → IsCallStateOf (D.world desk.old) call_state.new) }
    ensures answer { Trusted D.Units desk.old desk.new (IsCallStateOf (D.world desk.old) call_state.old →
        IfOk result (λ r. r ≡ host_at (edited (D.world desk.old) call_state.old.edits) number)) }
    ensures edits { call_state.new.edits ≡ call_state.old.edits }
    ensures causes { Trusted D.Units desk.old desk.new (IfErr result (D.may_fail desk.old)) }
{
    if let Some(row) = call_state.host(number) {
        return Ok(Some(copy_of(row)?));
    }
    let Some(row) = desk.host_by_id(alloc, number)? else {
        return Ok(None);
    };
    call_state.keep_host(number, copy_of(&row)?)?;
    Ok(Some(row))
}

/// Replaces the host of this number. Unavailable if there is no such host.
pub(crate) fn put_host<D: Desk>(
    alloc: Global,
    desk: &mut D,
    call_state: &mut CallState,
    number: u32,
    row: &HostRow,
) -> Result<(), Unavailable>
    ensures reads { D.reads desk.old desk.new }
    ensures call_state { Trusted D.Units desk.old desk.new (IsCallStateOf (D.world desk.old) call_state.old → IsCallStateOf (D.world desk.old) call_state.new) }
    ensures edits { OnOk result (call_state.new.edits ≡ call_state.old.edits ++ edit.Host number row.now ∷ []) }
    ensures err { OnErr result (call_state.new.edits ≡ call_state.old.edits) }
    ensures causes { Trusted D.Units desk.old desk.new (IsCallStateOf (D.world desk.old) call_state.old → IsSome (host_at (edited (D.world desk.old) call_state.old.edits) number) → IfErr result (D.may_fail desk.old)) }
{
    let Some(_) = read_host(alloc, desk, call_state, number)? else {
        return Err(Unavailable(Cause::Spoiled(Invariant::ReplacedHost)));
    };
    call_state.put_host(number, row)?;
    Ok(())
}

/// Adds a host after the others, unless the limit is reached, and returns its number. Unavailable after any other
/// change.
pub(crate) fn add_host<D: Desk>(
    desk: &mut D,
    call_state: &mut CallState,
    row: &HostRow,
    most: u32,
) -> Result<Option<u32>, Unavailable>
    ensures reads { D.reads desk.old desk.new }
    ensures call_state { Trusted D.Units desk.old desk.new (IsCallStateOf (D.world desk.old) call_state.old → IsCallStateOf (D.world desk.old) call_state.new) }
    ensures number { Trusted D.Units desk.old desk.new (
        IfOk result (λ n. IfSome n (λ number. (number ≡ length (D.world desk.old).hosts + 1) × (number ≤ most)))) }
    ensures full { Trusted D.Units desk.old desk.new (IfOk result (λ n. n ≡ None → most ≤ length (D.world desk.old).hosts)) }
    ensures added { IfOk result (λ n. IfSome n (λ number. call_state.new.edits ≡ call_state.old.edits ++ edit.Host number row.now ∷ [])) }
    ensures none { IfOk result (λ n. n ≡ None → call_state.new.edits ≡ call_state.old.edits) }
    ensures err { OnErr result (call_state.new.edits ≡ call_state.old.edits) }
    ensures causes { Trusted D.Units desk.old desk.new (call_state.old.edits ≡ [] → IfErr result (D.may_fail desk.old)) }
{
    if !call_state.edits.is_empty() {
        return Err(Unavailable(Cause::Broken(Invariant::HostBeforeEdits)));
    }
    let count = desk.counts()?.hosts;
    if most <= count {
        return Ok(None);
    }
    call_state.put_host(count + 1, row)?;
    Ok(Some(count + 1))
}
