//! What the bytes of a request mean, as far as they have come.

ghost use Rattle.std.specs.Prelude.{◌≡◌};
ghost use Rattle.httparse.specs.Grammar.{RequestHead};
ghost use Rattle.httparse.specs.Spans.{IsRequestWithin, IsRequestAt};
ghost use Rattle.http_messages.specs.Deciding.{head_decision};
ghost use Rattle.http_messages.specs.Hearing.{decision_seen};
ghost use Rattle.http_messages.specs.Meaning.{Means, IsDetermined, Misses, MissesNoMore, message_seen};
ghost use Rattle.http_messages.specs.Routers.{the_routes};

use crate::deciding::{Decision, decide_for};
use crate::heads::{HeadRead, MOST_FIELDS, head_room, read_head};
use crate::message::{Message, MessageSoFar};
use crate::route_kind::RouteKind;
use crate::routes::{path_of, route_of};
use httparse::spans::{EMPTY_HEADER_SPAN, HeaderSpan, RequestSpans};
use matchit::Router;
use rpc_records::Fault;
use texts::utf8_text;

/// What the head in `front` decides, if its parts are at these spans.
fn decide<'b>(
    router: &Router<RouteKind>,
    key: &[u8],
    front: &'b [u8],
    fields: &[HeaderSpan],
    spans: RequestSpans,
) -> Decision<'b>
    requires routes { router.now ≡ the_routes }
    requires within { IsRequestWithin front.now fields.now spans }
    ensures { (h : RequestHead) → IsRequestAt front.entry.now fields.now spans h → decision_seen result ≡ head_decision key.now h }
{
    let method = spans.method.of(front);
    let fields = &fields[..spans.headers];
    match utf8_text(spans.path.of(front)) {
        Some(target) => decide_for(
            key,
            method,
            front,
            fields,
            route_of(router, path_of(target)),
        ),
        None => Decision::AtOnce(Message::Refused(Fault::BadHttp)),
    }
}

/// Returns what the bytes that came so far mean, if `key` is the operator's. Also returns how many more are needed at
/// least before no further bytes can change that.
///
/// The first check that fails gives the refusal. The checks come in this order: the head, the route, the method, the
/// operator's key on its routes, the length of the body, and whether the body is whole. What a path names is checked
/// with the route, except a host's number, which comes last.
///
/// If none is missing, no further bytes can change the meaning. If some are missing, the bytes await more: as long as
/// the peer sends, they must be heard again once so many more have come. If the head is whole, these are the rest of
/// its body. If it is not, at least one byte is missing. Once the peer has stopped, the bytes mean what is returned
/// here. For a request that is cut short, that is [`Fault::BadHttp`].
pub fn hear<'b>(router: &Router<RouteKind>, key: &[u8], bytes: &'b [u8]) -> MessageSoFar<'b>
    requires { router.now ≡ the_routes }
    ensures meaning { Means key.now bytes.entry.now (message_seen result.message) }
    ensures settled { result.missing ≡ 0 → IsDetermined key.now bytes.entry.now (message_seen result.message) }
    ensures awaits { Misses key.now bytes.entry.now result.missing }
    ensures no_more { MissesNoMore key.now bytes.entry.now result.missing }
{
    let mut fields = [EMPTY_HEADER_SPAN; MOST_FIELDS];
    match read_head(bytes, &mut fields) {
        HeadRead::Whole(spans) => {
            let decision = decide(router, key, head_room(bytes), &fields, spans);
            let rest = &bytes[spans.len..];
            MessageSoFar {
                message: decision.message(rest),
                missing: decision.missing(rest),
            }
        }
        HeadRead::Partial => MessageSoFar {
            message: Message::Refused(Fault::BadHttp),
            missing: 1,
        },
        HeadRead::Refused => MessageSoFar {
            message: Message::Refused(Fault::BadHttp),
            missing: 0,
        },
    }
}
