//! The civil date and time of a moment.

ghost use Rattle.std.specs.Prelude.{◌≡◌, ◌<◌, ◌*◌, ◌++◌, ◌∷◌, None, pos, IfNone, IfOk, IfSome};
ghost use Rattle.jiff.specs.Words.{civil_nanos, date_text, time_text};
ghost use Rattle.office_files.specs.Civil as spec;

use jiff::Timestamp;
use jiff::civil::DateTime;
use jiff::tz::TimeZone;
use sched_book::{Cause, Invariant, Unavailable};
use std::alloc::Global;
use texts::{Memory, Text};

/// The last second for which `jiff` gives the civil date and time at every offset, late in the year 9999.
const LAST_SECOND: u64 = 253_402_207_200;

/// The date and time in UTC at a moment, in seconds since 1970-01-01T00:00:00Z, up to [`LAST_SECOND`].
fn civil_of(moment: u64) -> Option<DateTime>
    ensures told { IfSome result (λ civil. civil_nanos civil ≡ pos (moment * 1_000_000_000)) }
    ensures late { IfNone result (spec.last_civil < moment) }
{
    if moment > LAST_SECOND {
        return None;
    }
    match Timestamp::from_second(moment as i64) {
        Ok(instant) => Some(instant.to_zoned(TimeZone::UTC).datetime()),
        Err(_) => None,
    }
}

/// The text of a date and time at a whole second.
fn text_of(alloc: Global, civil: DateTime) -> Result<Text, Memory>
    ensures { IfOk result (λ text. text ≡ date_text civil.date ++ 32 ∷ time_text None civil.time) }
{
    let (date, time) = (civil.date(), civil.time());
    Ok(Text::of(format!(in alloc; "{date} {time}")?))
}

/// Returns the civil date and time of a moment, in UTC, such as `2024-06-19 17:30:05`. A moment after [`LAST_SECOND`]
/// is refused.
#[tactic(auto, using(crate::proofs::CivilTexts::text_is))]
pub(super) fn civil_text(alloc: Global, moment: u64) -> Result<Text, Unavailable>
    ensures { IfOk result (λ text. text ≡ spec.civil_text moment) }
{
    match civil_of(moment) {
        None => Err(Unavailable(Cause::Broken(Invariant::DateOfMoment))),
        Some(civil) => Ok(text_of(alloc, civil)?),
    }
}
