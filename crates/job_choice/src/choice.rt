//! The choice of jobs over a desk.

ghost use Rattle.std.specs.Prelude.{◌≡◌, ◌-◌, Some, IsTrue, IfOk, IfErr, OnOk};
ghost use Rattle.sched_book.specs.Fits.{version_for};
ghost use Rattle.sched_book.specs.Limits.{IsBounded};
ghost use Rattle.sched_book.specs.Trusted.{Trusted};
ghost use Rattle.job_choice.specs.Chosen.{IsChoice};
ghost use Rattle.job_choice.specs.Choosing.{known_runs, can_judge};
ghost use Rattle.job_choice.specs.Past.{IsUserPast};
ghost use Rattle.job_choice.specs.Offered.{first_place, limits_on, IsRight, IsUpToDate, HasChosen};

use crate::choosing::{Choosing, Known, KnownApp, Limits, Unjudged, begin, finish, is_done};
use crate::granted::Grant;
use crate::past::look_at;
use crate::seeking::note_had;
use sched_book::limits::{MOST_INSTANCES, MOST_WORKUNITS};
use sched_book::{Cause, Desk, HostRow, Invariant, Moment, Place, Unavailable, Version};
use std::alloc::Global;
use texts::Text;

/// The most stops of the offers: the choice goes on with fewer candidates after each, and a world has no more instances.
const MOST_STOPS: usize = MOST_WORKUNITS * MOST_INSTANCES;

/// The place of the first instance of the first workunit.
pub(crate) fn first_place() -> Place
    ensures { result ≡ first_place }
{
    Place { unit: 1, number: 0 }
}

/// Asks for the limits on the jobs of a host on this day.
fn read_limits<D: Desk>(
    alloc: Global,
    desk: &mut D,
    number: u32,
    host: &HostRow,
    held: u32,
    day: u64,
) -> Result<Limits, Unavailable>
    ensures reads { D.reads desk.old desk.new }
    ensures answer { Trusted D.Units desk.old desk.new (
        IfOk result (λ limits. limits ≡ limits_on (D.world desk.old) number host.now held day)) }
    ensures causes { Trusted D.Units desk.old desk.new (IfErr result (D.may_fail desk.old)) }
{
    let settings = desk.settings(alloc)?;
    let sent = desk.sent_on_day(number, day)?;
    Ok(Limits {
        reply: settings.max_wus_to_send,
        progress: settings.max_wus_in_progress.saturating_sub(held),
        day: host.quota.saturating_sub(sent),
    })
}

/// The seconds that are wanted in addition to those that the host gets anyway.
fn still_wanted(asked: u64, before: u64) -> u64
    ensures { result ≡ asked - before }
{
    asked.saturating_sub(before)
}

/// The version that the host runs of the application of this name; none if there is no such application.
///
/// # Errors
///
/// [`Unavailable`] if there is no memory or the desk is unavailable.
#[tactic(auto, using(crate::proofs::Known::version_none))]
pub fn version_for<D: Desk>(
    alloc: Global,
    desk: &mut D,
    host: &HostRow,
    app: &str,
) -> Result<Option<Version>, Unavailable>
    ensures reads { D.reads desk.old desk.new }
    ensures answer { Trusted D.Units desk.old desk.new (
        IfOk result (λ version. version ≡ version_for (D.world desk.old) host.now app.now)) }
    ensures causes { Trusted D.Units desk.old desk.new (IfErr result (D.may_fail desk.old)) }
{
    match desk.app_by_name(alloc, app)? {
        None => Ok(None),
        Some(app) => desk.version_for(alloc, host, app.place),
    }
}

/// Whether the host runs a version of the application of this name. If that is not known, asks which.
#[tactic(auto, using(crate::proofs::Known::runs_more))]
fn learn_app<D: Desk>(
    alloc: Global,
    desk: &mut D,
    host: &HostRow,
    known: &mut Known,
    app: Text,
) -> Result<bool, Unavailable>
    ensures reads { D.reads desk.old desk.new }
    ensures answer { Trusted D.Units desk.old desk.new (
        OnOk result (IsRight (D.world desk.old) host.now known.old → IsRight (D.world desk.old) host.now known.new)) }
    ensures runs { IfOk result (λ runs. known_runs known.new.apps app ≡ Some runs) }
    ensures causes { Trusted D.Units desk.old desk.new (IfErr result (D.may_fail desk.old)) }
{
    if let Some(runs) = known.runs(app.as_str()) {
        return Ok(runs);
    }
    let version = version_for(alloc, desk, host, app.as_str())?;
    let runs = version.is_some();
    known.apps.push(KnownApp { app, version })?;
    Ok(runs)
}

/// Asks for what is needed to judge a candidate: which version the host runs of its application and, if it runs one,
/// whether the user had its workunit.
fn learn<D: Desk>(
    alloc: Global,
    desk: &mut D,
    host: &HostRow,
    known: &mut Known,
    unjudged: Unjudged,
) -> Result<(), Unavailable>
    ensures reads { D.reads desk.old desk.new }
    ensures answer { Trusted D.Units desk.old desk.new (
        OnOk result (IsRight (D.world desk.old) host.now known.old → IsRight (D.world desk.old) host.now known.new)) }
    ensures judged { OnOk result (IsTrue (can_judge known.new unjudged)) }
    ensures causes { Trusted D.Units desk.old desk.new (IfErr result (D.may_fail desk.old)) }
{
    let unit = unjudged.place.unit;
    if !learn_app(alloc, desk, host, known, unjudged.app)? {
        return Ok(());
    }
    look_at(alloc, desk, host.account, &mut known.past, unit)
}

/// Offers the candidates, unless none could be taken. If the offers stop at a candidate that could not be judged, it
/// asks for what is needed, and the offers continue from there.
///
/// Unavailable if there are more candidates than a world may have.
fn offer_all<D: Desk>(
    alloc: Global,
    desk: &mut D,
    choosing: &mut Choosing,
) -> Result<(), Unavailable>
    ensures reads { D.reads desk.old desk.new }
    ensures answer { Trusted D.Units desk.old desk.new (
        OnOk result (IsUpToDate (D.world desk.old) choosing.old → HasChosen (D.world desk.old) choosing.old choosing.new)) }
    ensures past { Trusted D.Units desk.old desk.new (
        OnOk result (IsUpToDate (D.world desk.old) choosing.old
        → IsUserPast (D.world desk.old) choosing.old.host.now.account choosing.new.known.past)) }
    ensures causes { Trusted D.Units desk.old desk.new (IsBounded (D.world desk.old) → IsUpToDate (D.world desk.old) choosing.old → IfErr result (D.may_fail desk.old)) }
{
    if is_done(choosing) {
        return Ok(());
    }
    let account = choosing.host.account;
    let mut from = first_place();
    for stops in 0..=MOST_STOPS {
        desk.unsent_for(account, from, choosing)?;
        if choosing.refused {
            return Err(Unavailable(Cause::Memory));
        }
        let Some(unjudged) = choosing.unjudged.take() else {
            return Ok(());
        };
        from = unjudged.place;
        learn(alloc, desk, choosing.host, &mut choosing.known, unjudged)?;
    }
    Err(Unavailable(Cause::Spoiled(Invariant::StopsOfChoice)))
}

/// Chooses jobs for the host of this number, which has this row and asks for `asked` seconds of work. Jobs that are sent
/// to it again give it `before` seconds of these.
///
/// `held` is how many jobs it holds. The candidates are offered by place, until the host has enough or a limit is
/// reached. Unavailable if there is no memory, if the desk is unavailable, or if there are more candidates than a world
/// may have.
pub fn choose<D: Desk>(
    alloc: Global,
    desk: &mut D,
    number: u32,
    host: &HostRow,
    before: u64,
    held: u32,
    asked: u64,
    now: Moment,
) -> Result<Grant, Unavailable>
    ensures reads { D.reads desk.old desk.new }
    ensures answer { Trusted D.Units desk.old desk.new (
        IfOk result (IsChoice (D.world desk.old) (record {
          number = number;
          host = host.now;
          before = before;
          held = held;
          asked = asked;
          now = now;
        }))) }
    ensures causes { Trusted D.Units desk.old desk.new (IsBounded (D.world desk.old) → IfErr result (D.may_fail desk.old)) }
{
    let limits = read_limits(alloc, desk, number, host, held, now.day())?;
    let mut choosing = begin(alloc, host, limits, still_wanted(asked, before));
    offer_all(alloc, desk, &mut choosing)?;
    note_had(desk, host.account, &choosing.known.past)?;
    Ok(finish(choosing))
}
