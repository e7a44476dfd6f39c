//! The fields of a head, by their names.

ghost use Rattle.std.specs.Prelude.{◌≡◌, length, map, All};
ghost use Rattle.httparse.specs.Spans.{IsHeaderWithin, header_bytes};
ghost use Rattle.http_messages.specs.Fields as spec;

use httparse::spans::HeaderSpan;

/// What the fields of one name say.
#[derive(Clone, Copy)]
pub(crate) enum Found<'b> {
    /// There is none.
    Absent,
    /// There is one, with this value.
    Once(&'b [u8]),
    /// There are several.
    Often,
}

impl<'b> Found<'b> {
    /// The same with one more field of the name.
    fn and(self, value: &'b [u8]) -> Found<'b>
        ensures { spec.found_told result ≡ spec.told_again (spec.found_told self.entry) value.now }
    {
        match self {
            Found::Absent => Found::Once(value),
            Found::Once(_) | Found::Often => Found::Often,
        }
    }

    /// Whether there is one.
    pub(crate) fn is_told(self) -> bool
        ensures { result ≡ spec.is_told (spec.found_told self.entry) }
    {
        !matches!(self, Found::Absent)
    }
}

/// Whether two names of fields are the same.
fn is_same_name(name: &[u8], other: &[u8]) -> bool
    ensures { result ≡ spec.is_same_name name.now other.now }
{
    name.eq_ignore_ascii_case(other)
}

/// What the fields of `name` say, among those at `spans` in `front`.
pub(crate) fn find<'b>(front: &'b [u8], spans: &[HeaderSpan], name: &[u8]) -> Found<'b>
    requires { All (IsHeaderWithin (length front.now)) spans.now }
    ensures { spec.found_told result ≡ spec.field_named name.now (map (header_bytes front.now) spans.now) }
{
    let mut found = Found::Absent;
    for span in spans {
        if is_same_name(span.name.of(front), name) {
            found = found.and(span.value.of(front));
        }
    }
    found
}
