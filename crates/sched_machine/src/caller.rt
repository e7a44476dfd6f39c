//! The caller's host: its number, and its row as the call gives it.

ghost use Rattle.std.specs.Prelude.{◌≡◌, [], None, Some, IfOk, IfErr, IsErrOf, IsSome};
ghost use Rattle.sched_book.specs.Places.{host_at};
ghost use Rattle.sched_book.specs.Sound.{Sound};
ghost use Rattle.sched_book.specs.Step.{HasRoom, row_of_call};
ghost use Rattle.sched_book.specs.Trusted.{Trusted};
ghost use Rattle.sched_book.specs.declared.cause.Cause.{Cause};
ghost use Rattle.sched_book.specs.declared.cause.Cause.TheVariants.{Memory};
ghost use Rattle.sched_machine.specs.Calling.{IsAdmitted, IsEntered, LacksRoom};
ghost use Rattle.sched_machine.specs.declared.step_error.StepError.TheVariants as error;

use crate::step_error::StepError;
use call_working_set::Draft;
use rpc_records::Request;
use sched_book::{Caller, Cause, HostRow, Invariant, Unavailable};
use std::alloc::Global;

/// A call that the machine acts on.
#[derive(Drop)]
pub(crate) struct Calling {
    pub(crate) caller: Caller,
    /// The number of its host.
    pub(crate) number: u32,
    /// Its host's row as the call gives it, with the quota from before.
    pub(crate) host: HostRow,
}

/// A host's row as its call gives it.
fn row_of_call(caller: &Caller, request: &Request, quota: u32) -> Result<HostRow, Unavailable>
    ensures value { IfOk result (λ row. row ≡ row_of_call caller.now request.now quota) }
    ensures causes { IfErr result (λ u. u.0 ≡ Memory) }
{
    Ok(HostRow {
        account: caller.account,
        cpid: request.host.host_cpid.clone()?,
        p_fpops: request.host.p_fpops,
        m_nbytes: request.host.m_nbytes,
        d_free: request.host.d_free,
        platforms: request.platforms.clone()?,
        quota,
    })
}

/// Renews the host of this number, which keeps its quota.
fn renew_host<S: Draft>(
    alloc: Global,
    working_set: &mut S,
    caller: &Caller,
    number: u32,
    request: &Request,
) -> Result<Calling, Unavailable>
    ensures works { S.works working_set.old working_set.new }
    ensures entered { Trusted S.Units working_set.old working_set.new (IfOk result (λ call. S.edits working_set.old ≡ [] → Sound (S.entry working_set.old) →
        IsAdmitted (S.entry working_set.old) caller.now request.now → caller.now.host ≡ Some number →
        IsEntered (S.entry working_set.old) request.now call (S.world working_set.new) (S.edits working_set.new))) }
    ensures caller { IfOk result (λ call. call.caller ≡ caller.now) }
    ensures causes { Trusted S.Units working_set.old working_set.new (IsSome (host_at (S.world working_set.old) number) → IfErr result (S.may_fail working_set.old)) }
{
    let Some(before) = working_set.host(alloc, number)? else {
        return Err(Unavailable(Cause::Spoiled(Invariant::CallingHost)));
    };
    let host = row_of_call(caller, request, before.quota)?;
    working_set.put_host(alloc, number, &host)?;
    Ok(Calling {
        caller: *caller,
        number,
        host,
    })
}

/// Makes a host after the others, with the quota from the settings. Refused if there may be no more hosts.
fn make_host<S: Draft>(
    working_set: &mut S,
    caller: &Caller,
    request: &Request,
) -> Result<Calling, StepError>
    ensures works { S.works working_set.old working_set.new }
    ensures entered { Trusted S.Units working_set.old working_set.new (IfOk result (λ call. S.edits working_set.old ≡ [] → Sound (S.entry working_set.old) →
        IsAdmitted (S.entry working_set.old) caller.now request.now → caller.now.host ≡ None →
        IsEntered (S.entry working_set.old) request.now call (S.world working_set.new) (S.edits working_set.new))) }
    ensures caller { IfOk result (λ call. call.caller ≡ caller.now) }
    ensures room { Trusted S.Units working_set.old working_set.new (IfOk result (λ call. HasRoom (S.entry working_set.old) caller.now)) }
    ensures full { Trusted S.Units working_set.old working_set.new (IsErrOf result error.HostsFull →
        caller.now.host ≡ None → LacksRoom (S.entry working_set.old) caller.now) }
    ensures causes { Trusted S.Units working_set.old working_set.new (S.edits working_set.old ≡ [] → (cause : Cause) → IsErrOf result (error.Unavailable cause) → S.may_fail working_set.old (record { 0 = cause })) }
{
    let quota = working_set.settings().daily_result_quota;
    let most = working_set.settings().max_hosts;
    let host = row_of_call(caller, request, quota)?;
    match working_set.add_host(&host, most)? {
        None => Err(StepError::HostsFull),
        Some(number) => Ok(Calling {
            caller: *caller,
            number,
            host,
        }),
    }
}

/// Puts the row of a caller's host, as the call gives it, into the working set of the call, before any other edit.
/// Refused if the host is new and there may be no more hosts.
pub(crate) fn enter<S: Draft>(
    alloc: Global,
    working_set: &mut S,
    caller: &Caller,
    request: &Request,
) -> Result<Calling, StepError>
    ensures works { S.works working_set.old working_set.new }
    ensures entered { Trusted S.Units working_set.old working_set.new (IfOk result (λ call. S.edits working_set.old ≡ [] → Sound (S.entry working_set.old) →
        IsAdmitted (S.entry working_set.old) caller.now request.now →
        IsEntered (S.entry working_set.old) request.now call (S.world working_set.new) (S.edits working_set.new))) }
    ensures caller { IfOk result (λ call. call.caller ≡ caller.now) }
    ensures room { Trusted S.Units working_set.old working_set.new (IfOk result (λ call. HasRoom (S.entry working_set.old) caller.now)) }
    ensures full { Trusted S.Units working_set.old working_set.new (IsErrOf result error.HostsFull → LacksRoom (S.entry working_set.old) caller.now) }
    ensures causes { Trusted S.Units working_set.old working_set.new (S.edits working_set.old ≡ [] → IsAdmitted (S.entry working_set.old) caller.now request.now → (cause : Cause) → IsErrOf result (error.Unavailable cause) → S.may_fail working_set.old (record { 0 = cause })) }
{
    match caller.host {
        Some(number) => Ok(renew_host(alloc, working_set, caller, number, request)?),
        None => make_host(working_set, caller, request),
    }
}
