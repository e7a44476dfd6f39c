//! Places by names, and several edits at once.

ghost use Rattle.std.specs.Prelude.{◌≡◌, ◌++◌, [], ◌∷◌, IfOk, IfErr, OnOk, All};
ghost use Rattle.std.specs.Option.{option_copied};
ghost use Rattle.sched_book.specs.Places.{place_named};
ghost use Rattle.sched_book.specs.Delta.{edited, edited_one};
ghost use Rattle.sched_book.specs.Trusted.{Trusted};
ghost use Rattle.sched_book.specs.declared.delta.Edit.TheVariants as edit;
ghost use Rattle.call_working_set.specs.WorkingSets.{existing_on, IsOfKnown};

use crate::draft::Draft;
use crate::unit_state::UnitState;
use sched_book::{Cause, Edit, HostRow, Invariant, Place, Unavailable, split_name};
use std::alloc::Global;

/// The place, if there was an instance when the call came.
fn stood_at(unit_state: Option<&UnitState>, place: Place) -> Option<Place>
    ensures { result ≡ existing_on (option_copied unit_state.entry) place }
{
    match unit_state {
        None => None,
        Some(unit_state) => match unit_state.before().get(place.number as usize) {
            None => None,
            Some(_) => Some(place),
        },
    }
}

/// The place of the instance that a name denoted when the call came. Its workunit is read.
#[tactic(auto, using(crate::proofs::OnUnitStates::standing_steps))]
pub fn place_before<S: Draft>(
    alloc: Global,
    working_set: &mut S,
    name: &str,
) -> Result<Option<Place>, Unavailable>
    ensures reads { S.reads working_set.old working_set.new }
    ensures answer { Trusted S.Units working_set.old working_set.new (IfOk result (λ place. place ≡ place_named (S.entry working_set.old) name.now)) }
    ensures causes { Trusted S.Units working_set.old working_set.new (IfErr result (S.may_fail working_set.old)) }
{
    let Some((unit, number)) = split_name(name) else {
        return Ok(None);
    };
    let Some(unit) = working_set.unit_by_name(unit)? else {
        return Ok(None);
    };
    working_set.read(alloc, unit)?;
    Ok(stood_at(working_set.unit_state(unit), Place { unit, number }))
}

/// Puts a host at its number, if the number is that of a host or the next.
fn put_row<S: Draft>(
    alloc: Global,
    working_set: &mut S,
    number: u32,
    row: &HostRow,
) -> Result<(), Unavailable>
    ensures works { S.works working_set.old working_set.new }
    ensures put { Trusted S.Units working_set.old working_set.new (
        OnOk result (S.world working_set.new ≡ edited_one (S.world working_set.old) (edit.Host number row.now))) }
    ensures edits { OnOk result (S.edits working_set.new ≡ S.edits working_set.old ++ edit.Host number row.now ∷ []) }
    ensures causes { Trusted S.Units working_set.old working_set.new (IsOfKnown (S.world working_set.old) (edit.Host number row.now) → IfErr result (S.may_fail working_set.old)) }
{
    if working_set.host(alloc, number)?.is_some() {
        return working_set.put_host(alloc, number, row);
    }
    match working_set.add_host(row, u32::MAX)? {
        Some(added) if added == number => Ok(()),
        _ => Err(Unavailable(Cause::Broken(Invariant::NumberOfHost))),
    }
}

/// Makes one edit. A host must be at an existing number or at the next one.
fn put_one<S: Draft>(alloc: Global, working_set: &mut S, edit: &Edit) -> Result<(), Unavailable>
    ensures works { S.works working_set.old working_set.new }
    ensures put { Trusted S.Units working_set.old working_set.new (
        OnOk result (S.world working_set.new ≡ edited_one (S.world working_set.old) edit.now)) }
    ensures edits { OnOk result (S.edits working_set.new ≡ S.edits working_set.old ++ edit.now ∷ []) }
    ensures causes { Trusted S.Units working_set.old working_set.new (IsOfKnown (S.world working_set.old) edit.now → IfErr result (S.may_fail working_set.old)) }
{
    match edit {
        Edit::Instance { place, row } => {
            working_set.read(alloc, place.unit)?;
            working_set.put_instance(*place, row)
        }
        Edit::Class { unit, class } => {
            working_set.read(alloc, *unit)?;
            working_set.put_class(*unit, class)
        }
        Edit::Host { number, row } => put_row(alloc, working_set, *number, row),
    }
}

/// Makes edits in turn. A host must be at an existing number or at the next one.
pub fn put_all<S: Draft>(
    alloc: Global,
    working_set: &mut S,
    edits: &[Edit],
) -> Result<(), Unavailable>
    ensures works { S.works working_set.old working_set.new }
    ensures put { Trusted S.Units working_set.old working_set.new (
        OnOk result (S.world working_set.new ≡ edited (S.world working_set.old) edits.now)) }
    ensures edits { OnOk result (S.edits working_set.new ≡ S.edits working_set.old ++ edits.now) }
    ensures causes { Trusted S.Units working_set.old working_set.new (All (IsOfKnown (S.world working_set.old)) edits.now → IfErr result (S.may_fail working_set.old)) }
{
    for edit in edits {
        put_one(alloc, working_set, edit)?;
    }
    Ok(())
}
