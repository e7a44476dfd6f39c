//! How long the body of a request is.

ghost use Rattle.std.specs.Prelude.{◌≡◌, length, map, All};
ghost use Rattle.httparse.specs.Spans.{IsHeaderWithin, header_bytes};
ghost use Rattle.http_messages.specs.Bodies as spec;
ghost use Rattle.http_messages.specs.Fields.{found_told};

use crate::fields::{Found, find};
use crate::numbers::length_in;
use crate::route_kind::RouteKind;
use httparse::spans::HeaderSpan;
use rpc_records::Fault;

fn length_if_absent(route_kind: RouteKind) -> Result<usize, Fault>
    ensures { result ≡ spec.length_if_absent route_kind }
{
    match route_kind {
        RouteKind::Tick => Ok(0),
        RouteKind::Scheduler | RouteKind::Import | RouteKind::Hosts => Err(Fault::LengthRequired),
    }
}

fn length_within(most: usize, length: Option<u64>) -> Result<usize, Fault>
    ensures { result ≡ spec.length_within most length }
{
    match length {
        None => Err(Fault::BadHttp),
        Some(bytes) if bytes <= most as u64 => Ok(bytes as usize),
        Some(_) => Err(Fault::TooLarge),
    }
}

/// The length, from what the fields Content-Length say.
fn length_from_field(route_kind: RouteKind, found: Found<'_>) -> Result<usize, Fault>
    ensures { result ≡ spec.length_from_field route_kind (found_told found.entry) }
{
    match found {
        Found::Absent => length_if_absent(route_kind),
        Found::Once(value) => length_within(route_kind.most_bytes(), length_in(value)),
        Found::Often => Err(Fault::BadHttp),
    }
}

/// The length of the body that the fields at `spans` in `front` give, or the first refusal that they get.
pub(crate) fn body_length(
    route_kind: RouteKind,
    front: &[u8],
    spans: &[HeaderSpan],
) -> Result<usize, Fault>
    requires { All (IsHeaderWithin (length front.now)) spans.now }
    ensures { result ≡ spec.body_length route_kind (map (header_bytes front.now) spans.now) }
{
    if matches!(route_kind, RouteKind::Hosts) {
        return Ok(0);
    }
    if find(front, spans, b"transfer-encoding").is_told() {
        return Err(Fault::LengthRequired);
    }
    length_from_field(route_kind, find(front, spans, b"content-length"))
}
