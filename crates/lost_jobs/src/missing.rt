//! The jobs that a client lost.

ghost use Rattle.std.specs.Prelude.{◌≡◌, IfOk, IfErr};
ghost use Rattle.std.specs.Option.{option_copied};
ghost use Rattle.sched_book.specs.Places.{held_by};
ghost use Rattle.sched_book.specs.Lost.{lost};
ghost use Rattle.sched_book.specs.Trusted.{Trusted};
ghost use Rattle.lost_jobs.specs.Holding.{HoldsNoMore};
ghost use Rattle.lost_jobs.specs.UnitStates.{is_missing_on};

use call_working_set::{Draft, UnitState};
use rpc_records::Request;
use sched_book::{Place, Unavailable, instance_name};
use std::alloc::Global;
use texts::{Listed, Memory, SeenSet, Text};

/// Whether the host holds the instance of this number in a unit state, and its name is not listed.
fn is_missing_on(
    alloc: Global,
    host: u32,
    listed: &SeenSet<Text>,
    unit_state: Option<&UnitState>,
    number: u32,
) -> Result<bool, Memory>
    ensures { IfOk result (λ missing. missing ≡ is_missing_on host listed.now (option_copied unit_state.entry) number) }
{
    let Some(unit_state) = unit_state else {
        return Ok(false);
    };
    match unit_state.present().get(number as usize) {
        Some(instance) if instance.is_held_by(host) => {
            let name = instance_name(alloc, unit_state.unit().name.as_str(), number)?;
            Ok(!listed.has(&name))
        }
        _ => Ok(false),
    }
}

/// The jobs of the host that its client lost, in the working set of its call, by place. Of the places that the host
/// held when the call came, they are those that it still holds and does not list. There are none if lost jobs are not
/// sent again, or if the client sent no list.
///
/// # Errors
///
/// [`Unavailable`] if there is no memory or the desk is unavailable.
#[tactic(auto, using(crate::proofs::OnUnitStates::missing_steps))]
pub fn lost_on<S: Draft>(
    alloc: Global,
    working_set: &mut S,
    host: u32,
    held: &[Place],
    request: &Request,
) -> Result<Listed<Place>, Unavailable>
    ensures reads { S.reads working_set.old working_set.new }
    ensures answer { Trusted S.Units working_set.old working_set.new (IfOk result (λ places.
        held.now ≡ held_by (S.entry working_set.old) host → HoldsNoMore (S.entry working_set.old) (S.world working_set.old) host →
        places ≡ lost (S.world working_set.old) host request.now.other_results)) }
    ensures causes { Trusted S.Units working_set.old working_set.new (IfErr result (S.may_fail working_set.old)) }
{
    if !working_set.settings().resend_lost_results {
        return Ok(Listed::new(alloc));
    }
    let listed = match &request.other_results {
        None => return Ok(Listed::new(alloc)),
        Some(names) => SeenSet::of(alloc, names.as_slice())?,
    };
    let mut missing = Listed::new(alloc);
    for place in held {
        working_set.read(alloc, place.unit)?;
        if is_missing_on(
            alloc,
            host,
            &listed,
            working_set.unit_state(place.unit),
            place.number,
        )? {
            missing.push(*place)?;
        }
    }
    Ok(missing)
}
