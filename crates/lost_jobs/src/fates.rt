//! What happens to lost jobs.

ghost use Rattle.std.specs.Prelude.{◌≡◌, map, IfOk, IfErr};
ghost use Rattle.std.specs.Option.{option_copied};
ghost use Rattle.sched_book.specs.Fits.{version_for};
ghost use Rattle.sched_book.specs.Lost.{deadline_after};
ghost use Rattle.sched_book.specs.Trusted.{Trusted};
ghost use Rattle.lost_jobs.specs.Fates.{fate, resent_to};
ghost use Rattle.lost_jobs.specs.UnitStates.{open_job_on};

use call_working_set::{Draft, UnitState};
use job_choice::{fits, seconds_at};
use sched_book::{HostRow, Moment, Place, Unavailable, Version, Workunit, copy_of};
use std::alloc::Global;
use texts::{Listed, Memory};

/// What happens to a lost job.
#[derive(Clone, Copy)]
pub struct Fate {
    pub place: Place,
    /// Its new deadline if it is sent again, and none if it is dropped.
    pub resent: Option<u64>,
}

/// A job whose workunit was open when the call came.
#[derive(Drop)]
pub(crate) struct OpenJob {
    pub(crate) unit: Workunit,
    /// Its deadline; 0 if it was given to nobody.
    pub(crate) deadline: u64,
}

/// The deadline of a job that is sent again: it stays if the host can still meet it.
fn deadline_after(now: Moment, seconds: u64, delay: u32, deadline: u64) -> u64
    ensures { result ≡ deadline_after now seconds delay deadline }
{
    match now.seconds().checked_add(seconds) {
        Some(end) if end <= deadline => deadline,
        _ => now.seconds() + u64::from(delay),
    }
}

/// The job of a number in a unit state, if its workunit was open.
fn open_job_on(unit_state: Option<&UnitState>, number: u32) -> Result<Option<OpenJob>, Memory>
    ensures { IfOk result (λ job. job ≡ open_job_on (option_copied unit_state.entry) number) }
{
    let Some(unit_state) = unit_state else {
        return Ok(None);
    };
    if !unit_state.status_before().is_open() {
        return Ok(None);
    }
    let owner = match unit_state.before().get(number as usize) {
        Some(instance) => instance.owner,
        None => None,
    };
    let deadline = owner.map_or(0, |owner| owner.deadline);
    Ok(Some(OpenJob {
        unit: copy_of(unit_state.unit())?,
        deadline,
    }))
}

/// The version that the host runs of the application of this name, in the working set of its call; none if there is no
/// such application.
///
/// # Errors
///
/// [`Unavailable`] if there is no memory or the desk is unavailable.
#[tactic(auto, using(job_choice::proofs::Known::version_none))]
pub fn version_on<S: Draft>(
    alloc: Global,
    working_set: &mut S,
    host: &HostRow,
    app: &str,
) -> Result<Option<Version>, Unavailable>
    ensures reads { S.reads working_set.old working_set.new }
    ensures answer { Trusted S.Units working_set.old working_set.new (
        IfOk result (λ version. version ≡ version_for (S.entry working_set.old) host.now app.now)) }
    ensures causes { Trusted S.Units working_set.old working_set.new (IfErr result (S.may_fail working_set.old)) }
{
    match working_set.app_by_name(alloc, app)? {
        None => Ok(None),
        Some(app) => working_set.version_for(alloc, host, app.place),
    }
}

/// The new deadline of a lost job that is sent again; none if it is dropped.
fn resent_to<S: Draft>(
    alloc: Global,
    working_set: &mut S,
    host: &HostRow,
    place: Place,
    now: Moment,
) -> Result<Option<u64>, Unavailable>
    ensures reads { S.reads working_set.old working_set.new }
    ensures answer { Trusted S.Units working_set.old working_set.new (
        IfOk result (λ deadline. deadline ≡ resent_to (S.entry working_set.old) host.now now place)) }
    ensures causes { Trusted S.Units working_set.old working_set.new (IfErr result (S.may_fail working_set.old)) }
{
    working_set.read(alloc, place.unit)?;
    let Some(job) = open_job_on(working_set.unit_state(place.unit), place.number)? else {
        return Ok(None);
    };
    let unit = &job.unit;
    let version = version_on(alloc, working_set, host, unit.app.as_str())?;
    let seconds = seconds_at(unit.rsc_fpops_est, host.p_fpops);
    let deadline = deadline_after(now, seconds, unit.delay_bound, job.deadline);
    Ok(fits(host, unit, version.as_ref()).then_some(deadline))
}

/// What happens to these lost jobs of a host, which has this row now, in the working set of its call.
///
/// A job is sent again if its workunit was open when the call came and fits the host. Its deadline stays if the host can
/// meet it; otherwise it is that of a new job. The other jobs are dropped.
///
/// # Errors
///
/// [`Unavailable`] if there is no memory or the desk is unavailable.
pub fn fates_on<S: Draft>(
    alloc: Global,
    working_set: &mut S,
    host: &HostRow,
    lost: &[Place],
    now: Moment,
) -> Result<Listed<Fate>, Unavailable>
    ensures reads { S.reads working_set.old working_set.new }
    ensures answer { Trusted S.Units working_set.old working_set.new (
        IfOk result (λ fates. fates ≡ map (fate (S.entry working_set.old) host.now now) lost.now)) }
    ensures causes { Trusted S.Units working_set.old working_set.new (IfErr result (S.may_fail working_set.old)) }
{
    let mut fates = Listed::new(alloc);
    for place in lost {
        let resent = resent_to(alloc, working_set, host, *place, now)?;
        fates.push(Fate {
            place: *place,
            resent,
        })?;
    }
    Ok(fates)
}
