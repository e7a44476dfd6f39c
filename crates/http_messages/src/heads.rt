//! The heads of requests.

ghost use Rattle.std.specs.Prelude.{◌≡◌, length};
ghost use Rattle.http_messages.specs.Heads as spec;

use httparse::Status;
use httparse::spans::{HeaderSpan, RequestSpans, parse_request};

/// The most bytes of a head.
const MOST_HEAD_BYTES: usize = 8_192;

/// The maximum number of fields of a head.
pub(crate) const MOST_FIELDS: usize = 64;

/// What the bytes begin with.
pub(crate) enum HeadRead {
    /// A head, with its parts at these places.
    Whole(RequestSpans),
    /// None yet; further bytes may make one.
    Partial,
    /// None, and no further bytes can change that.
    Refused,
}

/// The bytes in which a head must fit.
pub(crate) fn head_room(bytes: &[u8]) -> &[u8]
    ensures { result.now ≡ spec.head_room bytes.now }
{
    if bytes.len() <= MOST_HEAD_BYTES {
        bytes
    } else {
        &bytes[..MOST_HEAD_BYTES]
    }
}

/// Looks for a head at the start of `bytes`, and writes the places of its fields to the start of `fields`.
pub(crate) fn read_head(bytes: &[u8], fields: &mut [HeaderSpan]) -> HeadRead
    requires { length fields.old ≡ spec.field_limit }
    ensures { spec.HeadReadSays bytes.now fields.new result }
{
    match parse_request(head_room(bytes), fields) {
        Ok(Status::Complete(spans)) => HeadRead::Whole(spans),
        Ok(Status::Partial) if bytes.len() < MOST_HEAD_BYTES => HeadRead::Partial,
        Ok(Status::Partial) => HeadRead::Refused,
        Err(_) => HeadRead::Refused,
    }
}
