//! The taker: what it has granted so far, and what it still takes.

ghost use Rattle.std.specs.Prelude.{◌≡◌, nat_le, OnOk};
ghost use Rattle.std.specs.Option.{option_copied};
ghost use Rattle.job_choice.specs.Choosing.{is_full, is_left as leaves, has_job_of, end_word_at, known_of, known_runs, unjudged_at, with_job, after};
ghost use Rattle.job_choice.specs.Offered.{IsBegun};

use crate::fitting::{fits, seconds_at};
use crate::granted::{Grant, Granted};
use crate::past::UserPast;
use rpc_records::EndWord;
use sched_book::{Candidate, Flow, HostRow, Place, Taker, Version};
use std::alloc::Global;
use texts::{Listed, Memory, Text};

/// The most jobs that one reply can grant.
#[derive(Clone, Copy)]
pub(crate) struct Limits {
    /// As many as a reply may have.
    pub(crate) reply: u32,
    /// As many as the host may still have in progress.
    pub(crate) progress: u32,
    /// As many as the host may still get on this day.
    pub(crate) day: u32,
}

/// What is known of an application for the host.
#[derive(Drop)]
pub(crate) struct KnownApp {
    /// Its name.
    pub(crate) app: Text,
    /// The version that the host runs, if it runs any.
    pub(crate) version: Option<Version>,
}

/// What was learned for the host while candidates were offered.
#[derive(Drop)]
pub(crate) struct Known {
    /// Which workunits the user had an instance of.
    pub(crate) past: UserPast,
    /// The applications that were asked about.
    pub(crate) apps: Listed<KnownApp>,
}

/// The candidate at which the offers stopped. It is not known yet which version the host runs of its application, or
/// whether the user had its workunit.
#[derive(Drop)]
pub(crate) struct Unjudged {
    pub(crate) place: Place,
    /// The name of its application.
    pub(crate) app: Text,
}

/// The taker that chooses jobs for a host from the candidates offered.
#[derive(Drop)]
pub(crate) struct Choosing<'a> {
    pub(crate) host: &'a HostRow,
    pub(crate) known: Known,
    pub(crate) limits: Limits,
    /// The seconds that are still asked for.
    pub(crate) wanted: u64,
    pub(crate) jobs: Listed<Granted>,
    pub(crate) unjudged: Option<Unjudged>,
    /// There was no memory, and an offer is lost.
    pub(crate) refused: bool,
}

/// A taker that was offered nothing yet, and knows nothing of the user's past.
pub(crate) fn begin(alloc: Global, host: &HostRow, limits: Limits, wanted: u64) -> Choosing
    ensures { IsBegun host.now limits wanted result }
{
    Choosing {
        host,
        known: Known {
            past: UserPast::InPart(Listed::new(alloc)),
            apps: Listed::new(alloc),
        },
        limits,
        wanted,
        jobs: Listed::new(alloc),
        unjudged: None,
        refused: false,
    }
}

/// Whether the number of jobs has reached a limit.
fn reaches(count: usize, limit: u32) -> bool
    ensures { result ≡ nat_le limit count }
{
    limit as usize <= count
}

/// Whether it takes no further job.
pub(crate) fn is_done(choosing: &Choosing) -> bool
    ensures { result ≡ is_full choosing.now }
{
    let count = choosing.jobs.len();
    choosing.wanted == 0
        || reaches(count, choosing.limits.reply)
        || reaches(count, choosing.limits.progress)
        || reaches(count, choosing.limits.day)
}

/// Why there are no more jobs.
fn end_word(choosing: &Choosing) -> EndWord
    ensures { result ≡ end_word_at choosing.now }
{
    let count = choosing.jobs.len();
    if choosing.wanted == 0 {
        return EndWord::Enough;
    }
    if reaches(count, choosing.limits.reply) {
        return EndWord::ReplyLimit;
    }
    if reaches(count, choosing.limits.progress) {
        return EndWord::InProgressLimit;
    }
    if reaches(count, choosing.limits.day) {
        return EndWord::DailyQuota;
    }
    EndWord::NoEligibleWork
}

/// What was chosen.
pub(crate) fn finish(choosing: Choosing) -> Grant
    ensures jobs { result.jobs ≡ choosing.entry.jobs }
    ensures end_word { result.end_word ≡ end_word_at choosing.entry }
{
    let end_word = end_word(&choosing);
    Grant {
        jobs: choosing.jobs,
        end_word,
    }
}

/// Whether one of the jobs is of the workunit at this place.
fn has_job(jobs: &[Granted], unit: u32) -> bool
    ensures { result ≡ has_job_of jobs.now unit }
{
    jobs.iter().any(|job| job.place.unit == unit)
}

/// Whether no candidate of the workunit at this place is taken: there is a job of it, or it is known that the user had
/// one.
fn is_left(choosing: &Choosing, unit: u32) -> bool
    ensures { result ≡ leaves choosing.now unit }
{
    has_job(choosing.jobs.as_slice(), unit) || choosing.known.past.user_had(unit).unwrap_or(false)
}

/// What is known of the application of this name.
fn find_known<'a>(apps: &'a [KnownApp], app: &str) -> Option<&'a KnownApp>
    ensures { option_copied result ≡ known_of apps.now app.now }
{
    apps.iter().find(|entry| entry.app.is(app))
}

impl Known {
    /// Whether the host runs a version of the application of this name; `None` if that is not known.
    pub(crate) fn runs(&self, app: &str) -> Option<bool>
        ensures { result ≡ known_runs self.now.apps app.now }
    {
        find_known(self.apps.as_slice(), app).map(|known| known.version.is_some())
    }
}

/// Marks the candidate as unjudged: too little is known of it.
fn leave_unjudged(choosing: &mut Choosing, candidate: &Candidate) -> Result<(), Memory>
    ensures { OnOk result (choosing.new ≡ unjudged_at choosing.old candidate.now) }
{
    let app = candidate.unit.app.clone()?;
    choosing.unjudged = Some(Unjudged {
        place: candidate.place,
        app,
    });
    Ok(())
}

/// Takes the candidate as a job by this version.
fn take(choosing: &mut Choosing, candidate: &Candidate, version: Version) -> Result<(), Memory>
    ensures { OnOk result (choosing.new ≡ with_job choosing.old candidate.now version) }
{
    let estimate = seconds_at(candidate.unit.rsc_fpops_est, choosing.host.p_fpops);
    choosing.jobs.push(Granted {
        place: candidate.place,
        estimate,
        version,
    })?;
    choosing.wanted = choosing.wanted.saturating_sub(estimate);
    Ok(())
}

/// Takes the candidate if the host may have it, or marks it as unjudged if too little is known of it.
///
/// The user's past comes last, because learning it costs most.
fn consider(choosing: &mut Choosing, candidate: &Candidate) -> Result<(), Memory>
    ensures { OnOk result (choosing.new ≡ after choosing.old candidate.now) }
{
    let place = candidate.place;
    let unit = &candidate.unit;
    if is_left(choosing, place.unit) {
        return Ok(());
    }
    let Some(known) = find_known(choosing.known.apps.as_slice(), unit.app.as_str()) else {
        return leave_unjudged(choosing, candidate);
    };
    let Some(version) = known.version.as_ref() else {
        return Ok(());
    };
    if !fits(choosing.host, unit, Some(version)) {
        return Ok(());
    }
    if choosing.known.past.user_had(place.unit).is_none() {
        return leave_unjudged(choosing, candidate);
    }
    let version = version.clone()?;
    take(choosing, candidate, version)
}

impl Taker for Choosing<'_> {
    ghost use Rattle.job_choice.specs.Choosing.{Takes};

    ghost takes = { Takes };

    fn offer(&mut self, candidate: &Candidate) -> Flow {
        if consider(self, candidate).is_err() {
            self.refused = true;
            return Flow::Stop;
        }
        if self.unjudged.is_some() || is_done(self) {
            Flow::Stop
        } else {
            Flow::GoOn
        }
    }

    fn passes_over(&self, place: Place) -> bool {
        self.unjudged.is_none() && !is_done(self) && is_left(self, place.unit)
    }
}
