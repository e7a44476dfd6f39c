//! One step of the job machine: a call, an import or a tick.

ghost use Rattle.std.specs.Prelude.{◌≡◌, [], IfOk, IfErr, IsErrOf};
ghost use Rattle.sched_book.specs.Delta.{edited, EditsFit, applied, Fits};
ghost use Rattle.sched_book.specs.Imports.{AreChecked};
ghost use Rattle.sched_book.specs.Sound.{Sound};
ghost use Rattle.sched_book.specs.declared.world.World.{World};
ghost use Rattle.sched_book.specs.Step.{HasRoom, RpcStep, TickStep, ImportStep};
ghost use Rattle.sched_book.specs.Trusted.{Trusted};
ghost use Rattle.call_working_set.specs.WorkingSets.{IsCallStateOf};
ghost use Rattle.sched_machine.specs.Calling.{LacksRoom, IsAdmitted};
ghost use Rattle.sched_machine.specs.Prepared.{IsReady};
ghost use Rattle.sched_machine.specs.Replying.{IsGranted};
ghost use Rattle.sched_machine.specs.declared.step_error.StepError.TheVariants as error;

use crate::imports::row_count;
use crate::preparing::{Ready, prepare};
use crate::reply::{Told, conclude, reply_of};
use crate::step_error::StepError;
use call_working_set::{CallState, WorkingSet};
use job_choice::choose;
use quorum_credit::lapse_places;
use rpc_records::{EndWord, Reply, Request};
use sched_book::{Caller, Cause, Delta, Desk, Invariant, Moment, Rows, Unavailable};
use std::alloc::Global;

/// Chooses new jobs for the host of a call and gives them to it. Returns what the reply says of them, and why there are
/// no more. The candidates are read as they were before the call: for its host they are the same.
fn grant_jobs<D: Desk>(
    alloc: Global,
    desk: &mut D,
    call_state: &mut CallState,
    ready: &Ready,
    request: &Request,
    now: Moment,
) -> Result<(Told, EndWord), Unavailable>
    ensures reads { D.reads desk.old desk.new }
    ensures step { Trusted D.Units desk.old desk.new (IsCallStateOf (D.world desk.old) call_state.old → IfOk result (λ told.
        IsReady (D.world desk.old) request.now now ready.now (edited (D.world desk.old) call_state.old.edits) call_state.old.edits →
        IsGranted (D.world desk.old) request.now now ready.now (edited (D.world desk.old) call_state.new.edits) call_state.new.edits told.0 told.1)) }
{
    let wish = &ready.wish;
    let grant = choose(
        alloc,
        desk,
        ready.call.number,
        &wish.row,
        wish.before,
        wish.held,
        request.asked,
        now,
    )?;
    let mut working_set = WorkingSet { desk, call_state };
    let told = conclude(
        alloc,
        &mut working_set,
        ready,
        request,
        now,
        grant.jobs.as_slice(),
    )?;
    Ok((told, grant.end_word))
}

/// Acts on a call with an empty call state. Afterwards the call state has the edits of the call; returns the reply.
fn act<D: Desk>(
    alloc: Global,
    desk: &mut D,
    call_state: &mut CallState,
    caller: &Caller,
    request: &Request,
    now: Moment,
) -> Result<Reply, StepError>
    ensures reads { D.reads desk.old desk.new }
    ensures step { Trusted D.Units desk.old desk.new (IsCallStateOf (D.world desk.old) call_state.old → IfOk result (λ reply. call_state.old.edits ≡ [] →
        Sound (D.world desk.old) → IsAdmitted (D.world desk.old) caller.now request.now →
        RpcStep (D.world desk.old) caller.now request.now now (edited (D.world desk.old) call_state.new.edits) reply)) }
    ensures fits { Trusted D.Units desk.old desk.new (IsCallStateOf (D.world desk.old) call_state.old → IfOk result (λ reply. call_state.old.edits ≡ [] →
        Sound (D.world desk.old) → IsAdmitted (D.world desk.old) caller.now request.now → EditsFit (D.world desk.old) call_state.new.edits)) }
    ensures room { Trusted D.Units desk.old desk.new (IsCallStateOf (D.world desk.old) call_state.old → IfOk result (λ reply. HasRoom (D.world desk.old) caller.now)) }
    ensures full { Trusted D.Units desk.old desk.new (IsCallStateOf (D.world desk.old) call_state.old → IsErrOf result error.HostsFull →
        LacksRoom (D.world desk.old) caller.now) }
{
    let request_delay = call_state.settings.request_delay;
    let mut working_set = WorkingSet { desk, call_state };
    let ready = prepare(alloc, &mut working_set, caller, request, now)?;
    drop(working_set);
    let (told, end_word) = grant_jobs(alloc, desk, call_state, &ready, request, now)?;
    Ok(reply_of(ready, told, end_word, request, request_delay))
}

/// The step of a first-heard call, whose caller [`caller_of`](crate::caller_of) returns: its changes and its reply. The
/// desk is only read. The machine knows nothing of sequence numbers, nor of earlier calls.
///
/// # Errors
///
/// [`StepError::HostsFull`] if the host is new and the project has as many hosts as its settings allow;
/// [`StepError::Unavailable`] if there is no memory or the desk is unavailable.
pub fn step_call<D: Desk>(
    alloc: Global,
    desk: &mut D,
    caller: &Caller,
    request: &Request,
    now: Moment,
) -> Result<(Delta, Reply), StepError>
    ensures reads { D.reads desk.old desk.new }
    ensures step { Trusted D.Units desk.old desk.new (IfOk result (λ done.
        Sound (D.world desk.old) → IsAdmitted (D.world desk.old) caller.now request.now →
        RpcStep (D.world desk.old) caller.now request.now now (applied (D.world desk.old) done.0) done.1)) }
    ensures sound { Trusted D.Units desk.old desk.new (IfOk result (λ done.
        Sound (D.world desk.old) → IsAdmitted (D.world desk.old) caller.now request.now → Sound (applied (D.world desk.old) done.0))) }
    ensures fits { Trusted D.Units desk.old desk.new (IfOk result (λ done.
        Sound (D.world desk.old) → IsAdmitted (D.world desk.old) caller.now request.now → Fits (D.world desk.old) done.0)) }
    ensures room { Trusted D.Units desk.old desk.new (IfOk result (λ done. HasRoom (D.world desk.old) caller.now)) }
    ensures full { Trusted D.Units desk.old desk.new (IsErrOf result error.HostsFull → LacksRoom (D.world desk.old) caller.now) }
{
    let mut call_state = CallState::new(alloc, desk.settings(alloc)?);
    let reply = act(alloc, desk, &mut call_state, caller, request, now)?;
    Ok((Delta::Edits(call_state.edits), reply))
}

/// The step of an import of checked rows: the change that adds them, and how many there are. It is the same for every
/// world.
///
/// # Errors
///
/// [`Unavailable`] if there are more rows than 32 bits count, which no checked import has.
#[tactic(auto, using(crate::proofs::Rows::Added::import_steps))]
pub fn step_import(rows: Rows) -> Result<(Delta, u32), Unavailable>
    ensures step { IfOk result (λ done. (w : World) → Sound w → AreChecked w rows → ImportStep w rows (applied w done.0) done.1) }
    ensures sound { IfOk result (λ done. (w : World) → Sound w → AreChecked w rows → Sound (applied w done.0)) }
    ensures fits { IfOk result (λ done. (w : World) → Sound w → AreChecked w rows → Fits w done.0) }
{
    let count = row_count(&rows)?;
    Ok((Delta::Rows(rows), count))
}

/// The step of a tick: what lapses by this moment, and how many instances do. The desk is only read.
///
/// # Errors
///
/// [`Unavailable`] if there is no memory or the desk is unavailable.
pub fn step_tick<D: Desk>(
    alloc: Global,
    desk: &mut D,
    now: Moment,
) -> Result<(Delta, u32), Unavailable>
    ensures reads { D.reads desk.old desk.new }
    ensures step { Trusted D.Units desk.old desk.new (IfOk result (λ done. Sound (D.world desk.old) →
        TickStep (D.world desk.old) now (applied (D.world desk.old) done.0) done.1)) }
    ensures sound { Trusted D.Units desk.old desk.new (IfOk result (λ done. Sound (D.world desk.old) → Sound (applied (D.world desk.old) done.0))) }
    ensures fits { Trusted D.Units desk.old desk.new (IfOk result (λ done. Sound (D.world desk.old) → Fits (D.world desk.old) done.0)) }
    ensures causes { Trusted D.Units desk.old desk.new (Sound (D.world desk.old) → IfErr result (D.may_fail desk.old)) }
{
    let places = desk.due_before(alloc, now)?;
    let Ok(count) = u32::try_from(places.len()) else {
        return Err(Unavailable(Cause::Spoiled(Invariant::LateInstances)));
    };
    let edits = lapse_places(alloc, desk, places.as_slice())?;
    Ok((Delta::Edits(edits), count))
}
