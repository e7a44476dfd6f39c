//! Everything before the body of a response.

ghost use Rattle.std.specs.Prelude.{◌≡◌, ◌+◌, ◌≤◌, ◌++◌, length};
ghost use Rattle.arrayvec.specs.ArrayString.{array_string_len};
ghost use Rattle.http_responses.specs.Responses.{phrase_of, status_line, field_line, allow_line, head_text};

use crate::media::Media;
use crate::method::Method;
use arrayvec::ArrayString;
use http::StatusCode;
use itoa::Buffer;

/// The most bytes before a body.
const MOST_HEAD_BYTES: usize = 192;

/// Everything before a body. It needs no memory.
pub type Head = ArrayString<MOST_HEAD_BYTES>;

/// The head of a response whose body has `size` bytes.
pub(crate) fn head_of_size(
    status: StatusCode,
    allow: Option<Method>,
    media: Media,
    size: usize,
) -> Head
    ensures { result.bytes ≡ head_text status allow media size }
{
    let mut head = Head::new();
    put_status_line(&mut head, status);
    put_allow(&mut head, allow);
    put_field(&mut head, "content-type", media.name());
    put_field(&mut head, "content-length", Buffer::new().format(size));
    put_field(&mut head, "connection", "close");
    head.push_str("\r\n");
    head
}

fn put_status_line(head: &mut Head, status: StatusCode)
    requires { array_string_len head.old + 55 ≤ 192 }
    ensures bytes { head.new.bytes ≡ head.old.bytes ++ status_line status }
    ensures len { array_string_len head.new ≤ array_string_len head.old + 55 }
{
    head.push_str("HTTP/1.1 ");
    head.push_str(status.as_str());
    head.push_str(" ");
    head.push_str(phrase(status));
    head.push_str("\r\n");
}

fn put_allow(head: &mut Head, allow: Option<Method>)
    requires { array_string_len head.old + 13 ≤ 192 }
    ensures bytes { head.new.bytes ≡ head.old.bytes ++ allow_line allow }
    ensures len { array_string_len head.new ≤ array_string_len head.old + 13 }
{
    if let Some(method) = allow {
        put_field(head, "allow", method.name());
    }
}

fn put_field(head: &mut Head, name: &str, value: &str)
    requires { array_string_len head.old + length name.now + length value.now + 4 ≤ 192 }
    ensures bytes { head.new.bytes ≡ head.old.bytes ++ field_line name.now value.now }
    ensures len { array_string_len head.new
        ≡ array_string_len head.old + length name.now + length value.now + 4 }
{
    head.push_str(name);
    head.push_str(": ");
    head.push_str(value);
    head.push_str("\r\n");
}

/// The phrase of a status code; empty if it has none.
fn phrase(status: StatusCode) -> &'static str
    ensures value { result.now ≡ phrase_of status }
    ensures short { length result.now ≤ 40 }
{
    match status.canonical_reason() {
        Some(phrase) => phrase,
        None => "",
    }
}
