//! What a reply says of jobs.

ghost use Rattle.std.specs.Prelude.{◌≡◌, [], ◌++◌, true, false, filter_map, option_map, unwrap_or, IfOk, IfErr, OnOk};
ghost use Rattle.std.specs.Option.{option_copied};
ghost use Rattle.std.specs.List.{cons_option};
ghost use Rattle.sched_book.specs.Fits.{version_at_unit};
ghost use Rattle.sched_book.specs.Places.{deadline_of};
ghost use Rattle.sched_book.specs.Step.{job_at};
ghost use Rattle.sched_book.specs.Trusted.{Trusted};
ghost use Rattle.sched_book.specs.declared.instance.Instance.{Instance};
ghost use Rattle.job_choice.specs.Chosen.{places_of};
ghost use Rattle.job_choice.specs.declared.granted.Granted.{Granted};
ghost use Rattle.call_working_set.specs.WorkingSets.{instance_now};
ghost use Rattle.sched_machine.specs.Granting.{is_again, job_on, AreRunBy};

use call_working_set::{Draft, UnitState};
use job_choice::{Granted, seconds_at};
use lost_jobs::version_on;
use rpc_records::Job;
use sched_book::{HostRow, Place, Unavailable, Version, instance_name};
use std::alloc::Global;
use texts::{Listed, Memory};

/// Whether a reply gives a job for the first time, or sends a lost one again.
#[derive(Clone, Copy, Debug, PartialEq, Eq)]
enum Sending {
    First,
    Again,
}

impl Sending {
    fn is_again(self) -> bool
        ensures { result ≡ is_again self }
    {
        match self {
            Sending::First => false,
            Sending::Again => true,
        }
    }
}

/// The deadline of the instance of a number in a unit state; 0 if there is no instance or it was given to nobody.
fn deadline_on(unit_state: &UnitState, number: u32) -> u64
    ensures { result ≡ unwrap_or (option_map (λ (x : Instance). deadline_of x.owner) (instance_now (Some unit_state.now) number)) 0 }
{
    match unit_state.present().get(number as usize) {
        None => 0,
        Some(instance) => match &instance.owner {
            None => 0,
            Some(owner) => owner.deadline,
        },
    }
}

/// What a reply says of the instance of a number in a unit state, to a host that runs this version. Nothing if the
/// workunit does not exist or the host runs no version.
fn job_on(
    alloc: Global,
    unit_state: Option<&UnitState>,
    number: u32,
    host: &HostRow,
    sending: Sending,
    version: Option<&Version>,
) -> Result<Option<Job>, Memory>
    ensures { IfOk result (λ job. job ≡ job_on (option_copied unit_state.entry) number host.now (is_again sending) (option_copied version.entry)) }
{
    let Some(unit_state) = unit_state else {
        return Ok(None);
    };
    let Some(version) = version else {
        return Ok(None);
    };
    let unit = unit_state.unit();
    Ok(Some(Job {
        app_name: unit.app.clone()?,
        estimate: seconds_at(unit.rsc_fpops_est, host.p_fpops),
        name: instance_name(alloc, unit.name.as_str(), number)?,
        platform: version.platform.clone()?,
        report_deadline: deadline_on(unit_state, number),
        resent: sending.is_again(),
        version_num: version.version_num,
        wu_name: unit.name.clone()?,
    }))
}

/// Adds what a reply says of the instance at a place, to a host that runs this version, after the others.
fn add_job<S: Draft>(
    alloc: Global,
    working_set: &mut S,
    host: &HostRow,
    sending: Sending,
    place: Place,
    version: Option<&Version>,
    jobs: &mut Listed<Job>,
) -> Result<(), Unavailable>
    ensures reads { S.reads working_set.old working_set.new }
    ensures answer { Trusted S.Units working_set.old working_set.new (OnOk result (
        option_copied version.entry ≡ version_at_unit (S.entry working_set.old) host.now place.unit →
        jobs.new ≡ jobs.old ++ cons_option (job_at (S.world working_set.old) host.now (is_again sending) place) [])) }
    ensures causes { Trusted S.Units working_set.old working_set.new (IfErr result (S.may_fail working_set.old)) }
{
    working_set.read(alloc, place.unit)?;
    let job = job_on(
        alloc,
        working_set.unit_state(place.unit),
        place.number,
        host,
        sending,
        version,
    )?;
    jobs.push_some(job)?;
    Ok(())
}

/// The version that the host runs of the application of the workunit at a place.
fn version_at_unit<S: Draft>(
    alloc: Global,
    working_set: &mut S,
    host: &HostRow,
    unit: u32,
) -> Result<Option<Version>, Unavailable>
    ensures reads { S.reads working_set.old working_set.new }
    ensures answer { Trusted S.Units working_set.old working_set.new (
        IfOk result (λ version. version ≡ version_at_unit (S.entry working_set.old) host.now unit)) }
    ensures causes { Trusted S.Units working_set.old working_set.new (IfErr result (S.may_fail working_set.old)) }
{
    match working_set.unit(alloc, unit)? {
        None => Ok(None),
        Some(unit) => version_on(alloc, working_set, host, unit.app.as_str()),
    }
}

/// Adds what a reply says of a job that is sent again after the others.
fn add_resent<S: Draft>(
    alloc: Global,
    working_set: &mut S,
    host: &HostRow,
    place: Place,
    jobs: &mut Listed<Job>,
) -> Result<(), Unavailable>
    ensures reads { S.reads working_set.old working_set.new }
    ensures answer { Trusted S.Units working_set.old working_set.new (
        OnOk result (jobs.new ≡ jobs.old ++ cons_option (job_at (S.world working_set.old) host.now true place) [])) }
    ensures causes { Trusted S.Units working_set.old working_set.new (IfErr result (S.may_fail working_set.old)) }
{
    let version = version_at_unit(alloc, working_set, host, place.unit)?;
    add_job(
        alloc,
        working_set,
        host,
        Sending::Again,
        place,
        version.as_ref(),
        jobs,
    )
}

/// What a reply says of the jobs at these places, which are sent again, in their order.
pub(crate) fn resent_jobs<S: Draft>(
    alloc: Global,
    working_set: &mut S,
    host: &HostRow,
    places: &[Place],
) -> Result<Listed<Job>, Unavailable>
    ensures reads { S.reads working_set.old working_set.new }
    ensures answer { Trusted S.Units working_set.old working_set.new (
        IfOk result (λ jobs. jobs ≡ filter_map (job_at (S.world working_set.old) host.now true) places.now)) }
    ensures causes { Trusted S.Units working_set.old working_set.new (IfErr result (S.may_fail working_set.old)) }
{
    let mut jobs = Listed::new(alloc);
    for place in places {
        add_resent(alloc, working_set, host, *place, &mut jobs)?;
    }
    Ok(jobs)
}

/// Adds what a reply says of new jobs after the others, in their order.
pub(crate) fn add_granted<S: Draft>(
    alloc: Global,
    working_set: &mut S,
    host: &HostRow,
    granted: &[Granted],
    jobs: &mut Listed<Job>,
) -> Result<(), Unavailable>
    ensures reads { S.reads working_set.old working_set.new }
    ensures answer { Trusted S.Units working_set.old working_set.new (OnOk result (AreRunBy (S.entry working_set.old) host.now granted.now →
        jobs.new ≡ jobs.old ++ filter_map (job_at (S.world working_set.old) host.now false) (places_of granted.now))) }
    ensures causes { Trusted S.Units working_set.old working_set.new (IfErr result (S.may_fail working_set.old)) }
{
    for job in granted {
        add_job(
            alloc,
            working_set,
            host,
            Sending::First,
            job.place,
            Some(&job.version),
            jobs,
        )?;
    }
    Ok(())
}
