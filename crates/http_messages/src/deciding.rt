//! What a head decides, and what is asked with the bytes after it.

ghost use Rattle.std.specs.Prelude.{◌≡◌, length, map, All, option_map};
ghost use Rattle.std.specs.Str.{bytes_eq};
ghost use Rattle.httparse.specs.Spans.{IsHeaderWithin, header_bytes};
ghost use Rattle.http_messages.specs.Deciding as spec;
ghost use Rattle.http_messages.specs.Fields.{found_told};
ghost use Rattle.http_messages.specs.Hearing.{decision_seen};
ghost use Rattle.http_messages.specs.Meaning.{message_seen};
ghost use Rattle.http_messages.specs.RouteKinds.{method_text};
ghost use Rattle.http_messages.specs.Routing.{route_seen};

use crate::bodies::body_length;
use crate::fields::{Found, find};
use crate::message::Message;
use crate::numbers::host_in;
use crate::routes::Route;
use http_responses::Method;
use httparse::spans::HeaderSpan;
use rpc_records::Fault;

/// What a head decides.
#[derive(Clone, Copy)]
pub(crate) enum Decision<'b> {
    /// What is asked, with any bytes after the head.
    AtOnce(Message<'b>),
    /// The route, and the length of the body.
    WithBody(Route<'b>, usize),
}

impl<'b> Decision<'b> {
    /// How many bytes of the body are missing after the head.
    pub(crate) fn missing(self, rest: &[u8]) -> usize
        ensures { result ≡ spec.missing (decision_seen self.entry) rest.now }
    {
        match self {
            Decision::AtOnce(_) => 0,
            Decision::WithBody(_, bytes) => bytes.saturating_sub(rest.len()),
        }
    }

    /// What is asked with these bytes after the head.
    pub(crate) fn message(self, rest: &'b [u8]) -> Message<'b>
        ensures { message_seen result ≡ spec.asked_with (decision_seen self.entry) rest.now }
    {
        match self {
            Decision::AtOnce(message) => message,
            Decision::WithBody(_, bytes) if rest.len() < bytes => Message::Refused(Fault::BadHttp),
            Decision::WithBody(route, bytes) => message_on(route, &rest[..bytes]),
        }
    }
}

/// What is asked on a route with a whole body.
fn message_on<'b>(route: Route<'b>, body: &'b [u8]) -> Message<'b>
    ensures { message_seen result ≡ spec.asked_on (route_seen route.entry) body.now }
{
    match route {
        Route::Scheduler => Message::Call(body),
        Route::Import(kind, batch) => Message::Import {
            kind,
            batch,
            text: body,
        },
        Route::Tick => Message::Tick,
        Route::Hosts(id) => match host_in(id) {
            Some(host) => Message::Statement(host),
            None => Message::Refused(Fault::NoSuchHost),
        },
    }
}

/// Whether two texts are the same. The time depends only on their lengths.
fn is_same_text(text: &[u8], key: &[u8]) -> bool
    ensures { result ≡ bytes_eq text.now key.now }
{
    if text.len() != key.len() {
        return false;
    }
    let mut are_same = true;
    for index in 0..key.len() {
        are_same &= text[index] == key[index];
    }
    are_same
}

/// Whether exactly one field has a key, and it is the operator's.
fn is_operator(key: &[u8], front: &[u8], spans: &[HeaderSpan]) -> bool
    requires { All (IsHeaderWithin (length front.now)) spans.now }
    ensures { result ≡ spec.is_operator key.now (map (header_bytes front.now) spans.now) }
{
    match find(front, spans, b"x-operator-key") {
        Found::Once(value) => is_same_text(value, key),
        Found::Absent | Found::Often => false,
    }
}

/// Whether a request names this method.
fn is_method(name: &[u8], method: Method) -> bool
    ensures { result ≡ bytes_eq name.now (method_text method) }
{
    match method {
        Method::Get => name == b"GET".as_slice(),
        Method::Post => name == b"POST".as_slice(),
    }
}

/// What the method and the fields of a head decide on a route.
fn decide_on<'b>(
    key: &[u8],
    method: &[u8],
    front: &[u8],
    spans: &[HeaderSpan],
    route: Route<'b>,
) -> Decision<'b>
    requires { All (IsHeaderWithin (length front.now)) spans.now }
    ensures { decision_seen result ≡ spec.decided_on key.now method.now (map (header_bytes front.now) spans.now) (route_seen route.entry) }
{
    let route_kind = route.kind();
    if !is_method(method, route_kind.method()) {
        return Decision::AtOnce(Message::WrongMethod(route_kind.method()));
    }
    if route_kind.needs_key() && !is_operator(key, front, spans) {
        return Decision::AtOnce(Message::Refused(Fault::NotOperator));
    }
    match body_length(route_kind, front, spans) {
        Ok(bytes) => Decision::WithBody(route, bytes),
        Err(fault) => Decision::AtOnce(Message::Refused(fault)),
    }
}

/// What the method and the fields of a head decide, if its path has this route or none.
pub(crate) fn decide_for<'b>(
    key: &[u8],
    method: &[u8],
    front: &[u8],
    spans: &[HeaderSpan],
    route: Option<Route<'b>>,
) -> Decision<'b>
    requires { All (IsHeaderWithin (length front.now)) spans.now }
    ensures { decision_seen result ≡ spec.decided_for key.now method.now (map (header_bytes front.now) spans.now) (option_map route_seen route.entry) }
{
    match route {
        Some(route) => decide_on(key, method, front, spans, route),
        None => Decision::AtOnce(Message::Refused(Fault::NoRoute)),
    }
}
