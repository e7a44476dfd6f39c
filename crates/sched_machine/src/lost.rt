//! What happens to the jobs that a call's client lost, and which of them are sent again.

ghost use Rattle.std.specs.Prelude.{◌≡◌, IfOk, IfErr, OnOk};
ghost use Rattle.sched_book.specs.Delta.{EditsFit};
ghost use Rattle.sched_book.specs.Places.{held_by};
ghost use Rattle.sched_book.specs.Step.{after_reports, after_lost, resent_of};
ghost use Rattle.sched_book.specs.Trusted.{Trusted};
ghost use Rattle.sched_machine.specs.Asked.{resent_places};
ghost use Rattle.sched_machine.specs.Calling.{IsCalling};

use crate::caller::Calling;
use call_working_set::Draft;
use lost_jobs::{Fate, fates_on, lost_on, put_fates};
use rpc_records::Request;
use sched_book::{Moment, Place, Unavailable};
use std::alloc::Global;
use texts::{Listed, Memory};

/// The places of the jobs that are sent again.
fn resent_places(alloc: Global, fates: &[Fate]) -> Result<Listed<Place>, Memory>
    ensures { IfOk result (λ places. places ≡ resent_places fates.now) }
{
    let mut places = Listed::new(alloc);
    for fate in fates {
        if fate.resent.is_some() {
            places.push(fate.place)?;
        }
    }
    Ok(places)
}

/// Sends again or drops the jobs that a call's client lost, among those that its host held when the call came. Returns
/// the places of those that are sent again.
pub(crate) fn lose<S: Draft>(
    alloc: Global,
    working_set: &mut S,
    call: &Calling,
    held: &[Place],
    request: &Request,
    now: Moment,
) -> Result<Listed<Place>, Unavailable>
    ensures works { S.works working_set.old working_set.new }
    ensures left { Trusted S.Units working_set.old working_set.new (OnOk result (IsCalling (S.entry working_set.old) request.now call.now →
        held.now ≡ held_by (S.entry working_set.old) call.now.number →
        S.world working_set.old ≡ after_reports (S.entry working_set.old) call.now.caller request.now →
        S.world working_set.new ≡ after_lost (S.entry working_set.old) call.now.caller request.now now)) }
    ensures fits { Trusted S.Units working_set.old working_set.new (OnOk result (IsCalling (S.entry working_set.old) request.now call.now →
        held.now ≡ held_by (S.entry working_set.old) call.now.number →
        S.world working_set.old ≡ after_reports (S.entry working_set.old) call.now.caller request.now →
        EditsFit (S.entry working_set.old) (S.edits working_set.old) → EditsFit (S.entry working_set.old) (S.edits working_set.new))) }
    ensures resent { Trusted S.Units working_set.old working_set.new (IfOk result (λ places. IsCalling (S.entry working_set.old) request.now call.now →
        held.now ≡ held_by (S.entry working_set.old) call.now.number →
        S.world working_set.old ≡ after_reports (S.entry working_set.old) call.now.caller request.now →
        places ≡ resent_of (S.entry working_set.old) call.now.caller request.now)) }
    ensures causes { Trusted S.Units working_set.old working_set.new (IfErr result (S.may_fail working_set.old)) }
{
    let lost = lost_on(alloc, working_set, call.number, held, request)?;
    let fates = fates_on(alloc, working_set, &call.host, lost.as_slice(), now)?;
    put_fates(alloc, working_set, fates.as_slice())?;
    let resent = resent_places(alloc, fates.as_slice())?;
    Ok(resent)
}
