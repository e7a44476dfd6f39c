//! The names that a client may forget.

ghost use Rattle.std.specs.Prelude.{◌≡◌, IfOk, IfErr};
ghost use Rattle.std.specs.Option.{option_copied};
ghost use Rattle.sched_book.specs.Lost.{is_aborted, aborts};
ghost use Rattle.sched_book.specs.Trusted.{Trusted};
ghost use Rattle.lost_jobs.specs.UnitStates.{is_aborted_on};

use call_working_set::{Draft, UnitState};
use rpc_records::Request;
use sched_book::{Unavailable, first_of_each, place_named};
use std::alloc::Global;
use texts::{Listed, Text};

/// Whether the client of the host may forget the instance of this number in a unit state: it awaits no report of the
/// host, or its workunit has failed.
fn is_aborted_on(unit_state: Option<&UnitState>, host: u32, number: u32) -> bool
    ensures { result ≡ is_aborted_on (option_copied unit_state.entry) host number }
{
    let Some(unit_state) = unit_state else {
        return true;
    };
    match unit_state.present().get(number as usize) {
        Some(instance) if instance.awaits_report_of(host) => {
            unit_state.decided_now().status.has_failed()
        }
        _ => true,
    }
}

/// Whether the client of the host may forget this name.
fn is_aborted<S: Draft>(
    alloc: Global,
    working_set: &mut S,
    host: u32,
    name: &str,
) -> Result<bool, Unavailable>
    ensures reads { S.reads working_set.old working_set.new }
    ensures answer { Trusted S.Units working_set.old working_set.new (
        IfOk result (λ aborted. aborted ≡ is_aborted (S.world working_set.old) host name.now)) }
    ensures causes { Trusted S.Units working_set.old working_set.new (IfErr result (S.may_fail working_set.old)) }
{
    let Some(place) = place_named(alloc, working_set, name)? else {
        return Ok(true);
    };
    working_set.read(alloc, place.unit)?;
    Ok(is_aborted_on(working_set.unit_state(place.unit), host, place.number))
}

/// The names in the client's list that it may forget, each once, in their order, in the working set of its call.
///
/// A client may forget the name of no instance of its host, of one that was reported, and of one of a failed workunit.
///
/// # Errors
///
/// [`Unavailable`] if there is no memory or the desk is unavailable.
pub fn aborts_on<S: Draft>(
    alloc: Global,
    working_set: &mut S,
    host: u32,
    request: &Request,
) -> Result<Listed<Text>, Unavailable>
    ensures reads { S.reads working_set.old working_set.new }
    ensures answer { Trusted S.Units working_set.old working_set.new (
        IfOk result (λ names. names ≡ aborts (S.world working_set.old) host request.now.other_results)) }
    ensures causes { Trusted S.Units working_set.old working_set.new (IfErr result (S.may_fail working_set.old)) }
{
    let Some(names) = &request.other_results else {
        return Ok(Listed::new(alloc));
    };
    let firsts = first_of_each(alloc, names.as_slice())?;
    let mut aborted = Listed::new(alloc);
    for &name in firsts.as_slice() {
        if is_aborted(alloc, working_set, host, name.as_str())? {
            aborted.push(name.clone()?)?;
        }
    }
    Ok(aborted)
}
