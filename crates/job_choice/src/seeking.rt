//! The first candidate that is new to a user: each one before it is of a workunit that the user had an instance of. It is sought
//! after a choice that met such a workunit, so that the next choice for the user begins there.

ghost use Rattle.std.specs.Prelude.{◌≡◌, false, unwrap_or, IfErr};
ghost use Rattle.sched_book.specs.Trusted.{Trusted};
ghost use Rattle.job_choice.specs.Past.{known_had, IsUserPast};

use crate::choice::first_place;
use crate::past::UserPast;
use sched_book::{Candidate, Desk, Flow, Place, Taker, Unavailable};

/// A taker that seeks the first candidate of a workunit that the user is not known to have had.
#[derive(Drop)]
pub(crate) struct Seeking<'a> {
    pub(crate) past: &'a UserPast,
    /// Its place, if it was found.
    pub(crate) first_new: Option<Place>,
}

/// Whether it is known that the user had an instance of the workunit at this place.
fn is_had(past: &UserPast, unit: u32) -> bool
    ensures { result ≡ unwrap_or (known_had past.now unit) false }
{
    past.user_had(unit).unwrap_or(false)
}

impl Taker for Seeking<'_> {
    ghost use Rattle.job_choice.specs.Seeking.{Seeks};

    ghost takes = { Seeks };

    fn offer(&mut self, candidate: &Candidate) -> Flow {
        if is_had(self.past, candidate.place.unit) {
            return Flow::GoOn;
        }
        self.first_new = Some(candidate.place);
        Flow::Stop
    }

    fn passes_over(&self, place: Place) -> bool {
        is_had(self.past, place.unit)
    }
}

/// Seeks the first candidate that is new to the user of this account, and the desk notes its place. Nothing is done if the user
/// is not known to have had anything.
///
/// # Errors
///
/// [`Unavailable`] if the desk is unavailable.
pub(crate) fn note_had<D: Desk>(
    desk: &mut D,
    account: u32,
    past: &UserPast,
) -> Result<(), Unavailable>
    ensures honest { D.honest desk.new → D.honest desk.old }
    ensures reads { (begun : D) → D.reads begun desk.old
        → Trusted D.Units begun desk.new (IsUserPast (D.world begun) account past.now) → D.reads begun desk.new }
    ensures causes { Trusted D.Units desk.old desk.new (IfErr result (D.may_fail desk.old)) }
{
    if !past.has_had() {
        return Ok(());
    }
    let mut seeking = Seeking {
        past,
        first_new: None,
    };
    desk.unsent_for(account, first_place(), &mut seeking)?;
    let Some(first_new) = seeking.first_new else {
        return Ok(());
    };
    desk.note_had(account, first_new);
    Ok(())
}
