//! The reply to a call: gives new jobs to its host, and says what the reply says of them and of credit.

ghost use Rattle.std.specs.Prelude.{◌≡◌, IfOk, IfErr, OnOk};
ghost use Rattle.sched_book.specs.Step.{IsCaller, granted, user_name};
ghost use Rattle.sched_book.specs.Trusted.{Trusted};
ghost use Rattle.job_choice.specs.Chosen.{places_of};
ghost use Rattle.sched_machine.specs.Granting.{with_classes, AreRunBy, CanTake, FitWithHost};
ghost use Rattle.sched_machine.specs.Replying.{AreReplyParts, reply_of};

use crate::jobs::{add_granted, resent_jobs};
use crate::owners::give;
use crate::preparing::Ready;
use crate::totals::{host_total, user_total};
use call_working_set::Draft;
use job_choice::Granted;
use rpc_records::{EndWord, Job, Reply, Request};
use sched_book::{Caller, Moment, Unavailable};
use std::alloc::Global;
use texts::{Listed, Text};

/// What a reply says of jobs and of its user after new jobs were given.
#[derive(Drop)]
pub(crate) struct Told {
    /// The jobs that are sent again, and then the new ones.
    pub(crate) results: Listed<Job>,
    pub(crate) host_credit: u64,
    pub(crate) user_credit: u64,
    pub(crate) user_name: Text,
}

/// The name of the caller's user.
fn user_name<S: Draft>(
    alloc: Global,
    working_set: &mut S,
    caller: Caller,
    request: &Request,
) -> Result<Text, Unavailable>
    ensures reads { S.reads working_set.old working_set.new }
    ensures answer { Trusted S.Units working_set.old working_set.new (IfOk result (λ name.
        IsCaller (S.entry working_set.old) caller request.now → name ≡ user_name (S.entry working_set.old) caller.account)) }
    ensures causes { Trusted S.Units working_set.old working_set.new (IfErr result (S.may_fail working_set.old)) }
{
    match working_set.account_by_key(alloc, request.authenticator.as_str())? {
        None => Ok(Text::copied(alloc, "")?),
        Some(account) => Ok(account.row.name),
    }
}

/// Gives new jobs to the host of a call, and returns what the reply then says of its jobs and its user.
pub(crate) fn conclude<S: Draft>(
    alloc: Global,
    working_set: &mut S,
    ready: &Ready,
    request: &Request,
    now: Moment,
    jobs: &[Granted],
) -> Result<Told, Unavailable>
    ensures works { S.works working_set.old working_set.new }
    ensures left { Trusted S.Units working_set.old working_set.new (OnOk result (
        S.world working_set.new ≡ with_classes (granted (S.world working_set.old) ready.now.call.number now (places_of jobs.now)) jobs.now)) }
    ensures fits { Trusted S.Units working_set.old working_set.new (OnOk result (CanTake (S.entry working_set.old) jobs.now →
        FitWithHost (S.entry working_set.old) ready.now.call.number (S.edits working_set.old) →
        FitWithHost (S.entry working_set.old) ready.now.call.number (S.edits working_set.new))) }
    ensures told { Trusted S.Units working_set.old working_set.new (IfOk result (λ told.
        IsCaller (S.entry working_set.old) ready.now.call.caller request.now → AreRunBy (S.entry working_set.old) ready.now.call.host jobs.now →
        AreReplyParts (S.entry working_set.old) (S.world working_set.new) ready.now (places_of jobs.now) told)) }
{
    let call = &ready.call;
    let settled = &ready.settled;
    give(alloc, working_set, call.number, now, jobs)?;
    let host_credit = host_total(working_set, call.number, settled.scores.as_slice())?;
    let user_credit = user_total(
        alloc,
        working_set,
        call.caller.account,
        settled.scores.as_slice(),
    )?;
    let user_name = user_name(alloc, working_set, call.caller, request)?;
    let mut results = resent_jobs(alloc, working_set, &call.host, settled.resent.as_slice())?;
    add_granted(alloc, working_set, &call.host, jobs, &mut results)?;
    Ok(Told {
        results,
        host_credit,
        user_credit,
        user_name,
    })
}

/// The reply to a call, made of its parts.
pub(crate) fn reply_of(
    ready: Ready,
    told: Told,
    end_word: EndWord,
    request: &Request,
    request_delay: u32,
) -> Reply
    ensures { result ≡ reply_of ready told end_word request.now request_delay }
{
    let Ready {
        call,
        settled,
        aborted,
        wish: _,
    } = ready;
    Reply {
        end_word,
        host_total_credit: told.host_credit,
        hostid: call.number,
        request_delay,
        result_abort: aborted,
        result_ack: settled.acked,
        results: told.results,
        rpc_seqno: request.rpc_seqno,
        user_name: told.user_name,
        user_total_credit: told.user_credit,
    }
}
