//! The result of a call before new jobs are chosen, and what is asked of their choice.

ghost use Rattle.std.specs.Prelude.{◌≡◌, [], length, sum_by, unwrap_or, count_by, IfOk, IfErr, IsErrOf, ◌<◌, true, is_ok};
ghost use Rattle.std.specs.Option.{option_copied};
ghost use Rattle.sched_book.specs.Fits.{estimate_at};
ghost use Rattle.sched_book.specs.Places.{host_at, held_by};
ghost use Rattle.sched_book.specs.Sound.{Sound};
ghost use Rattle.sched_book.specs.Step.{HasRoom};
ghost use Rattle.sched_book.specs.Trusted.{Trusted};
ghost use Rattle.lost_jobs.specs.Holding.{HoldsNoMore};
ghost use Rattle.sched_machine.specs.Asked.{still_holds};
ghost use Rattle.sched_machine.specs.Calling.{IsAdmitted, LacksRoom};
ghost use Rattle.sched_machine.specs.Prepared.{IsReady};
ghost use Rattle.sched_machine.specs.declared.step_error.StepError.TheVariants as error;

use crate::caller::{Calling, enter};
use crate::settlement::{SettledCall, settle_call};
use crate::step_error::StepError;
use call_working_set::{Draft, UnitState};
use job_choice::seconds_at;
use lost_jobs::aborts_on;
use quorum_credit::Score;
use rpc_records::Request;
use sched_book::{Caller, Cause, HostRow, Invariant, Moment, Place, Unavailable};
use std::alloc::Global;
use texts::{Listed, Text};

/// Whether the host still holds an instance that it held when the call came, by the state of its workunit. A workunit
/// that was not read was not changed.
fn still_holds(unit_state: Option<&UnitState>, host: u32, number: u32) -> bool
    ensures { result ≡ still_holds (option_copied unit_state.entry) host number }
{
    match unit_state {
        None => true,
        Some(unit_state) => match unit_state.present().get(number as usize) {
            None => false,
            Some(instance) => instance.is_held_by(host),
        },
    }
}

/// How many instances the host still holds, of those that it held when the call came.
fn held_now<S: Draft>(working_set: &S, host: u32, held: &[Place]) -> Result<u32, Unavailable>
    ensures count { IfOk result (λ count. count ≡ count_by (λ (p : Place). still_holds (S.kept working_set.now p.unit) host p.number) held.now) }
    ensures counted { length held.now < 4294967296 → is_ok result ≡ true }
{
    let mut count: u32 = 0;
    for place in held {
        if still_holds(working_set.unit_state(place.unit), host, place.number) {
            let Some(sum) = count.checked_add(1) else {
                return Err(Unavailable(Cause::Spoiled(Invariant::JobsOfHost)));
            };
            count = sum;
        }
    }
    Ok(count)
}

/// The seconds that the jobs at these places take the host; a place without a workunit counts 0. Refused if the sum
/// exceeds 64 bits.
#[tactic(auto, using(crate::proofs::Calls::Asked::estimate_none, crate::proofs::Calls::Asked::estimate_some))]
fn seconds_of<S: Draft>(
    alloc: Global,
    working_set: &mut S,
    host: &HostRow,
    places: &[Place],
) -> Result<u64, Unavailable>
    ensures reads { S.reads working_set.old working_set.new }
    ensures answer { Trusted S.Units working_set.old working_set.new (
        IfOk result (λ seconds. seconds ≡ sum_by (estimate_at (S.world working_set.old) host.now) places.now)) }
    ensures causes { Trusted S.Units working_set.old working_set.new (sum_by (estimate_at (S.world working_set.old) host.now) places.now < 18446744073709551616 → IfErr result (S.may_fail working_set.old)) }
{
    let mut seconds: u64 = 0;
    for place in places {
        let Some(unit) = working_set.unit(alloc, place.unit)? else {
            continue;
        };
        let more = seconds_at(unit.rsc_fpops_est, host.p_fpops);
        let Some(sum) = seconds.checked_add(more) else {
            return Err(Unavailable(Cause::Spoiled(Invariant::SecondsSentAgain)));
        };
        seconds = sum;
    }
    Ok(seconds)
}

/// What a call's host asks of the choice of new jobs.
#[derive(Drop)]
pub(crate) struct Wish {
    /// The host's row as settlement leaves it.
    pub(crate) row: HostRow,
    /// How many jobs it holds.
    pub(crate) held: u32,
    /// The seconds of the jobs that are sent to it again.
    pub(crate) before: u64,
}

/// What a call's host asks for. `held` is what it held when the call came, `resent` what is sent to it again.
fn wish_of<S: Draft>(
    alloc: Global,
    working_set: &mut S,
    call: &Calling,
    held: &[Place],
    resent: &[Place],
) -> Result<Wish, Unavailable>
    ensures reads { S.reads working_set.old working_set.new }
    ensures row { Trusted S.Units working_set.old working_set.new (IfOk result (λ wish.
        wish.row ≡ unwrap_or (host_at (S.world working_set.old) call.now.number) call.now.host)) }
    ensures held { Trusted S.Units working_set.old working_set.new (IfOk result (λ wish.
        held.now ≡ held_by (S.entry working_set.old) call.now.number → HoldsNoMore (S.entry working_set.old) (S.world working_set.old) call.now.number →
        wish.held ≡ length (held_by (S.world working_set.old) call.now.number))) }
    ensures before { Trusted S.Units working_set.old working_set.new (IfOk result (λ wish.
        wish.before ≡ sum_by (estimate_at (S.world working_set.old) call.now.host) resent.now)) }
    ensures causes { Trusted S.Units working_set.old working_set.new (length held.now < 4294967296 → sum_by (estimate_at (S.world working_set.old) call.now.host) resent.now < 18446744073709551616 → IfErr result (S.may_fail working_set.old)) }
{
    let held = held_now(working_set, call.number, held)?;
    let before = seconds_of(alloc, working_set, &call.host, resent)?;
    let row = match working_set.host(alloc, call.number)? {
        Some(row) => row,
        None => call.host.clone()?,
    };
    Ok(Wish { row, held, before })
}

/// A call that the machine acts on, up to the choice of new jobs.
#[derive(Drop)]
pub(crate) struct Ready {
    pub(crate) call: Calling,
    pub(crate) settled: SettledCall,
    /// The names that the client may forget.
    pub(crate) aborted: Listed<Text>,
    /// What the host asks of the choice.
    pub(crate) wish: Wish,
}

/// Puts the host of a call, takes its reports, sends its lost jobs again or drops them, and settles what all this
/// touches. Then finds what its client may forget and what its host asks for. Refused if the host is new and there may
/// be no more hosts.
pub(crate) fn prepare<S: Draft>(
    alloc: Global,
    working_set: &mut S,
    caller: &Caller,
    request: &Request,
    now: Moment,
) -> Result<Ready, StepError>
    ensures works { S.works working_set.old working_set.new }
    ensures ready { Trusted S.Units working_set.old working_set.new (IfOk result (λ ready. S.edits working_set.old ≡ [] → Sound (S.entry working_set.old) →
        IsAdmitted (S.entry working_set.old) caller.now request.now →
        IsReady (S.entry working_set.old) request.now now ready (S.world working_set.new) (S.edits working_set.new))) }
    ensures caller { IfOk result (λ ready. ready.call.caller ≡ caller.now) }
    ensures room { Trusted S.Units working_set.old working_set.new (IfOk result (λ ready. HasRoom (S.entry working_set.old) caller.now)) }
    ensures full { Trusted S.Units working_set.old working_set.new (IsErrOf result error.HostsFull → LacksRoom (S.entry working_set.old) caller.now) }
{
    let call = enter(alloc, working_set, caller, request)?;
    let held = working_set.held_before(alloc, call.number)?;
    let settled = settle_call(alloc, working_set, &call, held.as_slice(), request, now)?;
    let aborted = aborts_on(alloc, working_set, call.number, request)?;
    let wish = wish_of(
        alloc,
        working_set,
        &call,
        held.as_slice(),
        settled.resent.as_slice(),
    )?;
    Ok(Ready {
        call,
        settled,
        aborted,
        wish,
    })
}
