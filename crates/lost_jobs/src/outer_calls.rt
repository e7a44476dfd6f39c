//! Calls that the program does not make. They are for a caller that has a desk and no working set: tests, or another
//! scheduler. [`lost`] and [`resend_or_drop`] open a working set for the steps that the program runs, [`lost_on`] and
//! [`fates_on`]; [`aborts`] needs no desk.

ghost use Rattle.std.specs.Prelude.{◌≡◌, map, IfOk, IfErr};
ghost use Rattle.sched_book.specs.Delta.{edited};
ghost use Rattle.sched_book.specs.Lost.{lost, is_aborted, aborts};
ghost use Rattle.sched_book.specs.Trusted.{Trusted};
ghost use Rattle.lost_jobs.specs.Fates.{fate};
ghost use Rattle.lost_jobs.specs.Holding.{HoldsNoMore};
ghost use Rattle.lost_jobs.specs.Requested.{RecordsReports, AreLostBy};

use crate::fates::{Fate, fates_on};
use crate::missing::lost_on;
use call_working_set::{CallState, Draft, WorkingSet, put_all};
use rpc_records::Request;
use sched_book::{
    Desk, Edits, HostRow, Moment, Place, Unavailable, Units, first_of_each, place_named, status_at,
};
use std::alloc::Global;
use texts::{Listed, Text};

/// The jobs of the host that its client lost, by place: what the host still holds after edits and the client does not
/// list. There are none if lost jobs are not sent again, or if the client sent no list. The edits must leave the host
/// no job that it did not hold before. If they record the request's reports, the lost jobs are those that the host held
/// before, and that the request neither reports nor lists.
pub fn lost<D: Desk>(
    alloc: Global,
    desk: &mut D,
    edits: &Edits,
    host: u32,
    request: &Request,
) -> Result<Listed<Place>, Unavailable>
    ensures reads { D.reads desk.old desk.new }
    ensures answer { Trusted D.Units desk.old desk.new (IfOk result (λ places.
        HoldsNoMore (D.world desk.old) (edited (D.world desk.old) edits.now) host →
        places ≡ lost (edited (D.world desk.old) edits.now) host request.now.other_results)) }
    ensures of_request { Trusted D.Units desk.old desk.new (IfOk result (λ places.
        RecordsReports (D.world desk.old) edits.now host request.now →
        AreLostBy (D.world desk.old) host request.now places)) }
{
    let mut call_state = CallState::new(alloc, desk.settings(alloc)?);
    let mut working_set = WorkingSet {
        desk,
        call_state: &mut call_state,
    };
    put_all(alloc, &mut working_set, edits.as_slice())?;
    let held = working_set.held_before(alloc, host)?;
    lost_on(alloc, &mut working_set, host, held.as_slice(), request)
}

/// What happens to these lost jobs of a host, as its call describes it.
///
/// A job is sent again if its workunit is open and fits the host. Its deadline stays if the host can meet it; otherwise
/// it is that of a new job. The other jobs are dropped.
pub fn resend_or_drop<D: Desk>(
    alloc: Global,
    desk: &mut D,
    host: &HostRow,
    lost: &[Place],
    now: Moment,
) -> Result<Listed<Fate>, Unavailable>
    ensures reads { D.reads desk.old desk.new }
    ensures answer { Trusted D.Units desk.old desk.new (
        IfOk result (λ fates. fates ≡ map (fate (D.world desk.old) host.now now) lost.now)) }
    ensures causes { Trusted D.Units desk.old desk.new (IfErr result (D.may_fail desk.old)) }
{
    let mut call_state = CallState::new(alloc, desk.settings(alloc)?);
    let mut working_set = WorkingSet {
        desk,
        call_state: &mut call_state,
    };
    fates_on(alloc, &mut working_set, host, lost, now)
}

/// Whether the client of the host may forget this name: no instance of the name awaits a report of the host, or its
/// workunit has failed.
fn is_aborted_in<U: Units>(
    alloc: Global,
    units: &mut U,
    host: u32,
    name: &str,
) -> Result<bool, Unavailable>
    ensures reads { U.reads units.old units.new }
    ensures answer { Trusted U.Units units.old units.new (
        IfOk result (λ aborted. aborted ≡ is_aborted (U.world units.old) host name.now)) }
    ensures causes { Trusted U.Units units.old units.new (IfErr result (U.may_fail units.old)) }
{
    let Some(place) = place_named(alloc, units, name)? else {
        return Ok(true);
    };
    let Some(instance) = units.instance(alloc, place.unit, place.number)? else {
        return Ok(true);
    };
    if !instance.awaits_report_of(host) {
        return Ok(true);
    }
    Ok(status_at(alloc, units, place.unit)?.has_failed())
}

/// The names in the client's list that it may forget, each once, in their order.
///
/// A client may forget the name of no instance of its host, of one that was reported, and of one of a failed workunit.
pub fn aborts<U: Units>(
    alloc: Global,
    units: &mut U,
    host: u32,
    request: &Request,
) -> Result<Listed<Text>, Unavailable>
    ensures reads { U.reads units.old units.new }
    ensures answer { Trusted U.Units units.old units.new (
        IfOk result (λ names. names ≡ aborts (U.world units.old) host request.now.other_results)) }
    ensures causes { Trusted U.Units units.old units.new (IfErr result (U.may_fail units.old)) }
{
    let Some(names) = &request.other_results else {
        return Ok(Listed::new(alloc));
    };
    let firsts = first_of_each(alloc, names.as_slice())?;
    let mut aborted = Listed::new(alloc);
    for &name in firsts.as_slice() {
        if is_aborted_in(alloc, units, host, name.as_str())? {
            aborted.push(name.clone()?)?;
        }
    }
    Ok(aborted)
}
