//! A call of a host, over any store.

ghost use Rattle.std.specs.Prelude.{◌≡◌, ◌<◌, true, length, is_ok, IfOk, OnOk};
ghost use Rattle.reply_register.specs.Calls.{reply_at};
ghost use Rattle.rpc_records.specs.Ranges.{IsInRange};
ghost use Rattle.rpc_records.specs.Replies.{reply_text_of};
ghost use Rattle.rpc_records.specs.Spelling.{canonical_text};
ghost use Rattle.sched_book.specs.Trusted.{Trusted};
ghost use Rattle.stores.specs.Acting.{ActsWhole};
ghost use Rattle.stores.specs.Held.{IsCommitted, IsKeptSoundly, MayBeCommitted};
ghost use Rattle.stores.specs.declared.entry.Entry.TheVariants as entry;
ghost use Rattle.pasts.specs.ByNumber.{kept_at};
ghost use Rattle.pasts.specs.Told.{answer_from_kept};
ghost use Rattle.pasts.specs.declared.answer.AnswerContent.TheVariants.{Good};
ghost use Rattle.message_engine.specs.Calls.{IsNamedCaller, IsCallServed, MayAct, ServesCall, entry_of_call, told_caller};

use crate::commits::commit_and_answer;
use pasts::AnswerContent;
use reply_register::{Heard, Kept, classify};
use rpc_records::{Fault, Reply, Request, reply_text, request_text};
use sched_book::{Caller, Delta, Moment, Unavailable};
use sched_machine::{AdmissionError, StepError, caller_of, step_call};
use std::alloc::Global;
use stores::{Entry, Store, confirmed};
use texts::{Listed, Memory, Text};

/// Returns the reply of the kept call at this place again.
fn kept_reply(kept: &[Kept], place: usize) -> Result<AnswerContent, Memory>
    requires { place < length kept.now }
    ensures { IfOk result (λ answer. answer ≡ Good (reply_at kept.now place)) }
{
    Ok(AnswerContent::Good(kept[place].reply.clone()?))
}

/// The answer to a call of this number and canonical text from the kept calls of its host; `None` if it is fresh.
fn answer_from_kept(kept: &[Kept], seqno: u32, text: &str) -> Result<Option<AnswerContent>, Memory>
    ensures { IfOk result (λ told. told ≡ answer_from_kept true kept.now seqno text.now) }
{
    match classify(kept, seqno, text) {
        Heard::Fresh => Ok(None),
        Heard::Repeat(place) => Ok(Some(kept_reply(kept, place)?)),
        Heard::Reused(last) => Ok(Some(AnswerContent::Refusal(Fault::Reused(last)))),
        Heard::Stale(last) => Ok(Some(AnswerContent::Refusal(Fault::Stale(last)))),
    }
}

/// The kept calls of a caller's host; none if it has no host yet.
fn kept_of<S: Store>(
    alloc: Global,
    store: &mut S,
    caller: &Caller,
) -> Result<Listed<Kept>, Unavailable>
    ensures reads { S.reads store.old store.new }
    ensures kept { Trusted S.Units store.old store.new (IfOk result (λ kept. kept ≡ kept_at (S.holds store.old).calls caller.now.host)) }
{
    match caller.host {
        Some(number) => store.kept(alloc, number),
        None => Ok(Listed::new(alloc)),
    }
}

/// The answer to a call of this caller, number and canonical text from what is kept; `None` if it is fresh.
fn told_kept<S: Store>(
    alloc: Global,
    store: &mut S,
    caller: &Caller,
    seqno: u32,
    text: &str,
) -> Result<Option<AnswerContent>, Unavailable>
    ensures reads { S.reads store.old store.new }
    ensures told { Trusted S.Units store.old store.new (IfOk result (λ told.
        told ≡ told_caller (S.holds store.old).calls caller.now seqno text.now)) }
{
    let kept = kept_of(alloc, store, caller)?;
    Ok(answer_from_kept(kept.as_slice(), seqno, text)?)
}

/// The entry of a call of this host, with the body of its reply.
fn call_entry(host: u32, seqno: u32, text: Text, body: &Text) -> Result<Entry, Memory>
    ensures { IfOk result (λ made. made ≡ entry.Kept host (record { seqno = seqno; text = text; reply = body.now })) }
{
    let reply = body.clone()?;
    Ok(Entry::Kept(host, Kept { seqno, text, reply }))
}

/// Makes the changes of a call and keeps it with its reply, which is the answer.
fn keep<S: Store>(
    alloc: Global,
    store: &mut S,
    delta: &Delta,
    reply: &Reply,
    seqno: u32,
    text: Text,
) -> Result<AnswerContent, Unavailable>
    ensures acts { ActsWhole S.Store (is_ok result) (IsKeptSoundly delta.now (entry_of_call seqno text reply.now) (S.holds store.old)) store.old store.new }
    ensures answer { IfOk result (λ answer. answer ≡ Good (reply_text_of reply.now)) }
    ensures made { Trusted S.Units store.old store.new (OnOk result (MayBeCommitted delta.now (entry_of_call seqno text reply.now) (S.holds store.old) →
        IsCommitted delta.now (entry_of_call seqno text reply.now) (S.holds store.old) (S.holds store.new))) }
{
    let body = reply_text(alloc, reply)?;
    let entry = call_entry(reply.hostid, seqno, text, &body)?;
    commit_and_answer(store, delta, &entry, body)
}

/// Answers a fresh call. If there is room for its host, it is a step of the machine and is kept with its reply.
fn call_fresh<S: Store>(
    alloc: Global,
    store: &mut S,
    caller: &Caller,
    request: &Request,
    text: Text,
    now: Moment,
) -> Result<AnswerContent, Unavailable>
    requires in_range { IsInRange request.now }
    requires text { text ≡ canonical_text request.now }
    ensures acts { ActsWhole S.Store (is_ok result) (λ h.
        MayAct (S.holds store.old) caller.now request.now → IsCallServed request.now now (S.holds store.old) h) store.old store.new }
    ensures exact { Trusted S.Units store.old store.new (IfOk result (λ answer.
        MayAct (S.holds store.old) caller.now request.now → ServesCall request.now now answer (S.holds store.old) (S.holds store.new))) }
{
    match step_call(alloc, store, caller, request, now) {
        Ok((delta, reply)) => keep(alloc, store, &delta, &reply, request.rpc_seqno, text),
        Err(StepError::HostsFull) => confirmed(store, AnswerContent::Refusal(Fault::HostsFull)),
        Err(StepError::Unavailable(cause)) => Err(Unavailable(cause)),
    }
}

/// Answers a call of an admitted caller.
fn call_admitted<S: Store>(
    alloc: Global,
    store: &mut S,
    caller: &Caller,
    request: &Request,
    now: Moment,
) -> Result<AnswerContent, Unavailable>
    requires in_range { IsInRange request.now }
    ensures acts { ActsWhole S.Store (is_ok result) (λ h.
        IsNamedCaller (S.holds store.old).world caller.now request.now → IsCallServed request.now now (S.holds store.old) h) store.old store.new }
    ensures exact { Trusted S.Units store.old store.new (IfOk result (λ answer.
        IsNamedCaller (S.holds store.old).world caller.now request.now → ServesCall request.now now answer (S.holds store.old) (S.holds store.new))) }
{
    let text = request_text(alloc, request)?;
    match told_kept(alloc, store, caller, request.rpc_seqno, text.as_str())? {
        Some(answer) => confirmed(store, answer),
        None => call_fresh(alloc, store, caller, request, text, now),
    }
}

/// Answers a call. One that is first heard is a step of the job machine, and is kept with its reply. Any other is
/// answered from the world and the kept calls of its host, and changes nothing. A stop at any moment leaves the store
/// as it was, or with the call served.
///
/// # Errors
///
/// [`Unavailable`] leaves everything as it was, unless a fault has shut the store.
pub fn call<S: Store>(
    alloc: Global,
    store: &mut S,
    request: Request,
    now: Moment,
) -> Result<AnswerContent, Unavailable>
    requires in_range { IsInRange request }
    ensures acts { ActsWhole S.Store (is_ok result) (IsCallServed request now (S.holds store.old)) store.old store.new }
    ensures exact { Trusted S.Units store.old store.new (IfOk result (λ answer.
        ServesCall request now answer (S.holds store.old) (S.holds store.new))) }
{
    match caller_of(alloc, store, &request) {
        Ok(caller) => call_admitted(alloc, store, &caller, &request, now),
        Err(AdmissionError::BadAccount) => confirmed(
            store,
            AnswerContent::Refusal(Fault::BadAccount),
        ),
        Err(AdmissionError::BadHost) => confirmed(store, AnswerContent::Refusal(Fault::BadHost)),
        Err(AdmissionError::Unavailable(cause)) => Err(Unavailable(cause)),
    }
}
