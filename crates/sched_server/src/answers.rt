//! The answer to a message, and the response to that answer.

ghost use Rattle.std.specs.Prelude.{◌≡◌, is_ok, IfOk, OnErr};
ghost use Rattle.rpc_records.specs.Reading.{meaning};
ghost use Rattle.sched_book.specs.Trusted.{Trusted};
ghost use Rattle.stores.specs.Acting.{ActsWhole};
ghost use Rattle.pasts.specs.Messages.{Said, heard_now};
ghost use Rattle.http_messages.specs.Meaning.{message_seen};
ghost use Rattle.message_engine.specs.Imports.{IsImportServed, ServesImport};
ghost use Rattle.message_engine.specs.Stores.{ServesIn, IsServed};
ghost use Rattle.sched_server.specs.Answering.{IsRefusal, Responds};
ghost use Rattle.sched_server.specs.Handled.{refusal_to, response_to};
ghost use Rattle.sched_server.specs.Meanings.{SaysInThisEra, said_by, allowed_by};

use crate::statements::statement;
use http_messages::Message;
use http_responses::{Answer, Method, Response};
use message_engine::{call, import, tick};
use pasts::AnswerContent as Told;
use rpc_records::{Fault, decode_request};
use sched_book::{Cause, Moment, Unavailable};
use std::alloc::Global;
use stores::{Kind, Store, confirmed};
use texts::{Memory, Text};

/// Answers the call in the body of a scheduler_request. A body that means none is refused.
fn call_in_body<S: Store>(
    alloc: Global,
    store: &mut S,
    body: &[u8],
    now: Moment,
) -> Result<Told, Unavailable>
    ensures acts { ActsWhole S.Store (is_ok result) (IsServed (heard_now now (said_by (meaning body.now))) (S.holds store.old)) store.old store.new }
    ensures exact { Trusted S.Units store.old store.new (IfOk result (λ answer.
        ServesIn (heard_now now (said_by (meaning body.now))) answer (S.holds store.old) (S.holds store.new))) }
{
    match decode_request(alloc, body) {
        Ok(request) => call(alloc, store, request, now),
        Err(Fault::Unavailable) => Err(Unavailable(Cause::Memory)),
        Err(fault) => confirmed(store, Told::Refusal(fault)),
    }
}

/// Imports the batch of this name.
fn import_batch<S: Store>(
    alloc: Global,
    store: &mut S,
    kind: Kind,
    batch: &str,
    text: &[u8],
    now: Moment,
) -> Result<Told, Unavailable>
    ensures acts { ActsWhole S.Store (is_ok result) (IsImportServed now kind batch.now text.now (S.holds store.old)) store.old store.new }
    ensures exact { Trusted S.Units store.old store.new (IfOk result (λ answer.
        ServesImport now kind batch.now text.now answer (S.holds store.old) (S.holds store.new))) }
{
    let name = Text::copied(alloc, batch)?;
    import(alloc, store, kind, &name, text, now)
}

/// Answers a message at this moment, and does what it asks of the store.
pub(crate) fn answer<S: Store>(
    alloc: Global,
    store: &mut S,
    now: Moment,
    message: Message<'_>,
) -> Result<Told, Unavailable>
    ensures acts { ActsWhole S.Store (is_ok result) (λ h.
        (said : Said) × SaysInThisEra (message_seen message.entry) said × IsServed (heard_now now said) (S.holds store.old) h) store.old store.new }
    ensures exact { Trusted S.Units store.old store.new (IfOk result (λ told.
        (said : Said) × SaysInThisEra (message_seen message.entry) said × ServesIn (heard_now now said) told (S.holds store.old) (S.holds store.new))) }
{
    match message {
        Message::Call(body) => call_in_body(alloc, store, body, now),
        Message::Import { kind, batch, text } => import_batch(alloc, store, kind, batch, text, now),
        Message::Tick => tick(alloc, store, now),
        Message::Statement(host) => statement(alloc, store, host),
        Message::WrongMethod(_) => confirmed(store, Told::Refusal(Fault::WrongMethod)),
        Message::Refused(fault) => confirmed(store, Told::Refusal(fault)),
    }
}

/// The method that the route of a message takes, if the message has another one.
pub(crate) fn allowed_by(message: &Message<'_>) -> Option<Method>
    ensures { result ≡ allowed_by (message_seen message.now) }
{
    match message {
        Message::WrongMethod(allowed) => Some(*allowed),
        Message::Call(_)
        | Message::Import { .. }
        | Message::Tick
        | Message::Statement(_)
        | Message::Refused(_) => None,
    }
}

/// The response to a refusal. If a method is given, it says that the route takes that one.
fn refusal_to(alloc: Global, allowed: Option<Method>, fault: Fault) -> Result<Response, Memory>
    ensures { IfOk result (λ response. response ≡ refusal_to allowed fault) }
{
    match allowed {
        Some(method) => Response::wrong_method(alloc, method),
        None => Response::refusal(alloc, fault),
    }
}

/// The response to an answer. Only a refusal needs memory.
fn response_to(alloc: Global, allowed: Option<Method>, told: Told) -> Result<Response, Memory>
    ensures ok { IfOk result (λ response. response ≡ response_to allowed told) }
    ensures err { OnErr result (IsRefusal told) }
{
    match told {
        Told::Good(body) => Ok(Response::good(body)),
        Told::Statement(text) => Ok(Response::statement(text)),
        Told::Refusal(fault) => refusal_to(alloc, allowed, fault),
    }
}

/// The HTTP answer. It is unavailable if there is no answer, or if there is no memory for a refusal.
pub(crate) fn respond(
    alloc: Global,
    allowed: Option<Method>,
    told: Result<Told, Unavailable>,
) -> Answer
    ensures { Responds allowed told result }
{
    match told {
        Ok(told) => match response_to(alloc, allowed, told) {
            Ok(response) => Answer::Response(response),
            Err(_) => Answer::Unavailable,
        },
        Err(Unavailable(_)) => Answer::Unavailable,
    }
}
