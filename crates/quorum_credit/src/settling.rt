//! The settlement of the workunits that edits touch.

ghost use Rattle.std.specs.Prelude.{◌≡◌, [], IfOk, IfErr, OnOk};
ghost use Rattle.sched_book.specs.Delta.{edited, EditsFit};
ghost use Rattle.sched_book.specs.Settle.{settled};
ghost use Rattle.sched_book.specs.Sound.{Sound};
ghost use Rattle.sched_book.specs.Trusted.{Trusted};
ghost use Rattle.quorum_credit.specs.Scoring.{scores_of_units};
ghost use Rattle.quorum_credit.specs.Late.{lapsed_at, AreHeldInTurn};
ghost use Rattle.quorum_credit.specs.Settling.{TouchJust, Extends, AreScores};

use crate::growth::grow_on;
use crate::host_quotas::new_quotas;
use crate::late::lapse_on;
use crate::scores::{Score, scores_of_units};
use call_working_set::{CallState, Draft, WorkingSet, put_all};
use sched_book::{Desk, Edits, Place, Unavailable};
use std::alloc::Global;
use texts::Listed;

/// Settles these workunits in the working set of a call. Each open one gets the instances that it lacks, and each of
/// their hosts the quota that follows from what is new. Returns the scores of what is new. Only these workunits may
/// have been changed.
///
/// # Errors
///
/// [`Unavailable`] if there is no memory or the desk is unavailable.
pub fn settle_on<S: Draft>(
    alloc: Global,
    working_set: &mut S,
    touched: &[u32],
) -> Result<Listed<Score>, Unavailable>
    ensures works { S.works working_set.old working_set.new }
    ensures settled { Trusted S.Units working_set.old working_set.new (OnOk result (
        Sound (S.entry working_set.old) → EditsFit (S.entry working_set.old) (S.edits working_set.old) → TouchJust touched.now (S.entry working_set.old) (S.world working_set.old) →
        S.world working_set.new ≡ settled (S.entry working_set.old) (S.world working_set.old))) }
    ensures fits { Trusted S.Units working_set.old working_set.new (OnOk result (
        Sound (S.entry working_set.old) → EditsFit (S.entry working_set.old) (S.edits working_set.old) → TouchJust touched.now (S.entry working_set.old) (S.world working_set.old) →
        EditsFit (S.entry working_set.old) (S.edits working_set.new))) }
    ensures scores { Trusted S.Units working_set.old working_set.new (
        IfOk result (λ scores. scores ≡ scores_of_units (S.entry working_set.old) (S.world working_set.new) touched.now)) }
    ensures edits { Trusted S.Units working_set.old working_set.new (OnOk result (Extends (S.edits working_set.old) (S.edits working_set.new))) }
    ensures causes { Trusted S.Units working_set.old working_set.new (Sound (S.entry working_set.old) → IfErr result (S.may_fail working_set.old)) }
{
    grow_on(alloc, working_set, touched)?;
    let scores = scores_of_units(alloc, working_set, touched)?;
    let quotas = new_quotas(alloc, working_set, scores.as_slice())?;
    put_all(alloc, working_set, quotas.as_slice())?;
    Ok(scores)
}

/// Settles the workunits that a call or a tick has read in its working set, and returns what is new in them. No other
/// is touched.
///
/// # Errors
///
/// [`Unavailable`] if there is no memory or the desk is unavailable.
pub fn settle_read<S: Draft>(
    alloc: Global,
    working_set: &mut S,
) -> Result<Listed<Score>, Unavailable>
    ensures works { S.works working_set.old working_set.new }
    ensures settled { Trusted S.Units working_set.old working_set.new (OnOk result (
        Sound (S.entry working_set.old) → EditsFit (S.entry working_set.old) (S.edits working_set.old) →
        S.world working_set.new ≡ settled (S.entry working_set.old) (S.world working_set.old))) }
    ensures fits { Trusted S.Units working_set.old working_set.new (OnOk result (
        Sound (S.entry working_set.old) → EditsFit (S.entry working_set.old) (S.edits working_set.old) → EditsFit (S.entry working_set.old) (S.edits working_set.new))) }
    ensures scores { Trusted S.Units working_set.old working_set.new (IfOk result (λ scores.
        Sound (S.entry working_set.old) → EditsFit (S.entry working_set.old) (S.edits working_set.old) → AreScores (S.entry working_set.old) (S.world working_set.new) scores)) }
    ensures causes { Trusted S.Units working_set.old working_set.new (Sound (S.entry working_set.old) → IfErr result (S.may_fail working_set.old)) }
{
    let touched = working_set.units(alloc)?;
    let scores = settle_on(alloc, working_set, touched.as_slice())?;
    Ok(scores)
}

/// Lets the instances at these places lapse late, in their order, and settles their workunits, before any other edit.
fn lapse_read<S: Draft>(
    alloc: Global,
    working_set: &mut S,
    places: &[Place],
) -> Result<(), Unavailable>
    ensures works { S.works working_set.old working_set.new }
    ensures left { Trusted S.Units working_set.old working_set.new (OnOk result (S.edits working_set.old ≡ [] → Sound (S.entry working_set.old) →
        S.world working_set.new ≡ settled (S.entry working_set.old) (lapsed_at (S.entry working_set.old) places.now))) }
    ensures fits { Trusted S.Units working_set.old working_set.new (OnOk result (S.edits working_set.old ≡ [] → Sound (S.entry working_set.old) →
        EditsFit (S.entry working_set.old) (S.edits working_set.new))) }
    ensures causes { Trusted S.Units working_set.old working_set.new (Sound (S.entry working_set.old) → AreHeldInTurn (S.world working_set.old) places.now → IfErr result (S.may_fail working_set.old)) }
{
    lapse_on(alloc, working_set, places)?;
    settle_read(alloc, working_set)?;
    Ok(())
}

/// Lets the instances at these places lapse late, settles their workunits, and returns the edits. Refused if no host
/// holds one of the instances.
///
/// # Errors
///
/// [`Unavailable`] if there is no memory or the desk is unavailable.
pub fn lapse_places<D: Desk>(
    alloc: Global,
    desk: &mut D,
    places: &[Place],
) -> Result<Edits, Unavailable>
    ensures reads { D.reads desk.old desk.new }
    ensures settled { Trusted D.Units desk.old desk.new (IfOk result (λ edits. Sound (D.world desk.old) →
        edited (D.world desk.old) edits ≡ settled (D.world desk.old) (lapsed_at (D.world desk.old) places.now))) }
    ensures fits { Trusted D.Units desk.old desk.new (
        IfOk result (λ edits. Sound (D.world desk.old) → EditsFit (D.world desk.old) edits)) }
    ensures causes { Trusted D.Units desk.old desk.new (Sound (D.world desk.old) → AreHeldInTurn (D.world desk.old) places.now → IfErr result (D.may_fail desk.old)) }
{
    let mut call_state = CallState::new(alloc, desk.settings(alloc)?);
    let mut working_set = WorkingSet {
        desk,
        call_state: &mut call_state,
    };
    lapse_read(alloc, &mut working_set, places)?;
    drop(working_set);
    Ok(call_state.edits)
}
