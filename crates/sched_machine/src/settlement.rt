//! The result of a call up to settlement.

ghost use Rattle.std.specs.Prelude.{◌≡◌, IfOk, IfErr};
ghost use Rattle.sched_book.specs.Places.{held_by};
ghost use Rattle.sched_book.specs.Sound.{Sound};
ghost use Rattle.sched_book.specs.Trusted.{Trusted};
ghost use Rattle.sched_machine.specs.Calling.{IsEntered};
ghost use Rattle.sched_machine.specs.Prepared.{IsSettledCall};

use crate::caller::Calling;
use crate::lost::lose;
use call_working_set::Draft;
use quorum_credit::{Score, record_on, settle_read};
use rpc_records::Request;
use sched_book::{Moment, Place, Unavailable};
use std::alloc::Global;
use texts::{Listed, Text};

/// The result of a call up to settlement.
#[derive(Drop)]
pub(crate) struct SettledCall {
    /// The names that are acknowledged, in their order.
    pub(crate) acked: Listed<Text>,
    /// The places of the jobs that are sent again.
    pub(crate) resent: Listed<Place>,
    /// What is new of each instance, for and against its host.
    pub(crate) scores: Listed<Score>,
}

/// Takes the reports of a call whose host was put, sends its lost jobs again or drops them, and settles what all this
/// touches.
pub(crate) fn settle_call<S: Draft>(
    alloc: Global,
    working_set: &mut S,
    call: &Calling,
    held: &[Place],
    request: &Request,
    now: Moment,
) -> Result<SettledCall, Unavailable>
    ensures works { S.works working_set.old working_set.new }
    ensures settled { Trusted S.Units working_set.old working_set.new (IfOk result (λ done.
        IsEntered (S.entry working_set.old) request.now call.now (S.world working_set.old) (S.edits working_set.old) →
        held.now ≡ held_by (S.entry working_set.old) call.now.number →
        IsSettledCall (S.entry working_set.old) request.now call.now now done (S.world working_set.new) (S.edits working_set.new))) }
    ensures causes { Trusted S.Units working_set.old working_set.new (Sound (S.entry working_set.old) → IfErr result (S.may_fail working_set.old)) }
{
    let acked = record_on(alloc, working_set, call.number, request)?;
    let resent = lose(alloc, working_set, call, held, request, now)?;
    let scores = settle_read(alloc, working_set)?;
    Ok(SettledCall {
        acked,
        resent,
        scores,
    })
}
