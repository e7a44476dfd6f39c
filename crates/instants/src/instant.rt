//! Moments read from instants of ISO 8601.

ghost use Rattle.std.specs.Prelude.{◌≡◌};
ghost use Rattle.instants.specs.Instants as spec;

use jiff::Timestamp;
use sched_book::Moment;
use texts::utf8_text;

/// Returns the moment of an instant of ISO 8601. It is `None` if the bytes are not UTF-8, or if `jiff` reads no
/// instant. It is also `None` if the instant is not on a whole second, or is no moment.
pub fn moment_of(text: &[u8]) -> Option<Moment>
    ensures { result ≡ spec.moment_of text.now }
{
    match utf8_text(text) {
        Some(text) => moment_in(text),
        None => None,
    }
}

/// The same for a text.
pub fn moment_in(text: &str) -> Option<Moment>
    ensures { result ≡ spec.moment_in text.now }
{
    match text.parse::<Timestamp>() {
        Ok(instant) => moment_at(instant),
        Err(_) => None,
    }
}

fn moment_at(instant: Timestamp) -> Option<Moment>
    ensures { result ≡ spec.moment_of_nanoseconds instant.nanosecond }
{
    if instant.subsec_nanosecond() != 0 {
        return None;
    }
    match u64::try_from(instant.as_second()) {
        Ok(second) => Moment::new(second),
        Err(_) => None,
    }
}
