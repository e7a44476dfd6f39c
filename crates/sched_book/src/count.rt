//! What is counted of a workunit and of its instances, from scratch: the plain slow program of the definitions.
//!
//! Agreement, the canonical result, need, status and verdict. Nothing here takes memory.

ghost use Rattle.std.specs.Prelude.{◌≡◌, ◌<◌, ◌≤◌, ◌^◌, ◌+◌, true, length, take, drop, nat_le};
ghost use Rattle.std.specs.List.{prefix_len};
ghost use Rattle.std.specs.List.Sorted.{IsNonDecreasingBy};
ghost use Rattle.arrayvec.specs.ArrayVec.{array_vec_len};
ghost use Rattle.sched_book.specs.Count.{agree, output_of, place_of, put_by, good, errors, live, canonical, want, need, status_with, status, decided, verdict_by, verdict, is_valid};
ghost use Rattle.sched_book.specs.Places.{agreement_by, book_status};

use crate::ballots::first_leader_among;
use crate::instance::{Instance, Status, UnitBook, Verdict};
use crate::limits::MOST_INSTANCES;
use crate::rows::{Agreement, App, Workunit};
use crate::whole_numbers::{are_numbers_within, whole_number_of};
use arrayvec::ArrayVec;

/// Whether two outputs of an application agree.
pub fn agree(agreement: &Agreement, left: &str, right: &str) -> bool
    ensures { result ≡ agree agreement.now left.now right.now }
{
    match agreement {
        Agreement::Exact => left == right,
        Agreement::Within(distance) => {
            left == right
                || are_numbers_within(
                    *distance,
                    whole_number_of(left.as_bytes()),
                    whole_number_of(right.as_bytes()),
                )
        }
    }
}

/// The output that was reported of an instance; empty if it has no report.
pub(crate) fn output_at(instances: &[Instance], number: usize) -> &str
    ensures { result.now ≡ output_of instances.now number }
{
    match instances.get(number) {
        None => "",
        Some(instance) => match &instance.report {
            None => "",
            Some(outcome) => outcome.output.as_str(),
        },
    }
}

/// The place of an instance's judged report; 0 if it has none.
fn place_at(instances: &[Instance], number: usize) -> u32
    ensures { result ≡ place_of instances.now number }
{
    match instances.get(number) {
        None => 0,
        Some(instance) => match &instance.report {
            None => 0,
            Some(outcome) => outcome.place.unwrap_or(0),
        },
    }
}

/// Whether a report with this place belongs after all of these, in the order of their places.
fn is_last(instances: &[Instance], reports: &[usize], place: u32) -> bool
    requires { IsNonDecreasingBy (place_of instances.now) reports.now }
    ensures { result ≡ true → length reports.now ≡ prefix_len (λ j. nat_le (place_of instances.now j) place) reports.now }
{
    match reports.last() {
        None => true,
        Some(last) => place_at(instances, *last) <= place,
    }
}

/// The index at which a report belongs among these, in the order of their places: after those whose places are not
/// greater than its own. Mostly it is the last.
fn spot_among(instances: &[Instance], reports: &[usize], number: usize) -> usize
    requires { IsNonDecreasingBy (place_of instances.now) reports.now }
    ensures value { result ≡ prefix_len (λ j. nat_le (place_of instances.now j) (place_of instances.now number)) reports.now }
    ensures within { result ≤ length reports.now }
{
    let place = place_at(instances, number);
    if is_last(instances, reports, place) {
        return reports.len();
    }
    reports.partition_point(
        |other: &usize| -> bool
            ensures { result ≡ nat_le (place_of instances.entry.now other.now) place }
        { place_at(instances, *other) <= place },
    )
}

/// Inserts a report where it belongs among those in the order of their places.
fn put_report(instances: &[Instance], reports: &mut ArrayVec<usize, MOST_INSTANCES>, number: usize)
    requires room { array_vec_len reports.old < MOST_INSTANCES }
    requires order { IsNonDecreasingBy (place_of instances.now) reports.old.items }
    ensures items { reports.new.items ≡ put_by (place_of instances.now) reports.old.items number }
    ensures len { array_vec_len reports.new ≡ array_vec_len reports.old + 1 }
    ensures order { IsNonDecreasingBy (place_of instances.now) reports.new.items }
{
    let index = spot_among(instances, reports.as_slice(), number);
    reports.insert(index, number);
}

/// The good reports: the numbers of the judged successes, in the order of their places.
#[tactic(auto, using(crate::proofs::Reports::put_steps))]
fn good_reports(instances: &[Instance]) -> ArrayVec<usize, MOST_INSTANCES>
    requires { length instances.now ≤ MOST_INSTANCES }
    ensures { result.items ≡ good instances.now }
{
    let mut reports = ArrayVec::new();
    for (number, instance) in instances.iter().enumerate() {
        if instance.is_judged_success() {
            put_report(instances, &mut reports, number);
        }
    }
    reports
}

/// The number of the canonical result, if there is one.
pub fn canonical(agreement: &Agreement, unit: &Workunit, instances: &[Instance]) -> Option<usize>
    requires { length instances.now ≤ MOST_INSTANCES }
    ensures { result ≡ canonical agreement.now unit.now instances.now }
{
    let reports = good_reports(instances);
    let quorum = unit.min_quorum as usize;
    if quorum <= reports.len() {
        first_leader_among(
            agreement,
            instances,
            quorum / 2 + 1,
            reports.as_slice(),
            quorum,
        )
    } else {
        None
    }
}

/// How many judged successes a workunit has.
#[tactic(auto, using(crate::proofs::Reports::length_good))]
pub fn success_count(instances: &[Instance]) -> usize
    requires { length instances.now ≤ MOST_INSTANCES }
    ensures value { result ≡ length (good instances.now) }
    ensures few { result ≤ MOST_INSTANCES }
{
    instances
        .iter()
        .filter(|instance| instance.is_judged_success())
        .count()
}

/// How many judged client errors a workunit has.
pub fn error_count(instances: &[Instance]) -> usize
    ensures value { result ≡ errors instances.now }
    ensures few { result ≤ length instances.now }
{
    instances
        .iter()
        .filter(|instance| instance.is_judged_error())
        .count()
}

/// How many instances may still bring a result.
pub fn live_count(instances: &[Instance]) -> usize
    ensures value { result ≡ live instances.now }
    ensures few { result ≤ length instances.now }
{
    instances
        .iter()
        .filter(|instance| instance.is_live())
        .count()
}

/// How many results a workunit wants by now, with this number of successes.
fn wanted(unit: &Workunit, successes: usize) -> usize
    requires { successes ≤ MOST_INSTANCES }
    ensures value { result ≡ want unit.now successes }
    ensures small { result < 2 ^ 32 }
{
    let target = unit.target_nresults as usize;
    if unit.min_quorum as usize <= successes {
        target.max(successes + 1)
    } else {
        target
    }
}

/// How many more instances a workunit needs.
pub fn need(unit: &Workunit, instances: &[Instance]) -> usize
    requires { length instances.now ≤ MOST_INSTANCES }
    ensures value { result ≡ need unit.now instances.now }
    ensures small { result < 2 ^ 32 }
{
    let successes = success_count(instances);
    wanted(unit, successes)
        .saturating_sub(live_count(instances))
        .saturating_sub(successes)
}

/// What is decided of a workunit from its instances.
#[derive(Clone, Copy, Debug, PartialEq, Eq)]
pub struct Decided {
    /// The number of the canonical result, if there is one.
    pub canonical: Option<usize>,
    pub status: Status,
}

/// The status of a workunit that has this canonical result, or none.
fn status_with(canonical: Option<usize>, unit: &Workunit, instances: &[Instance]) -> Status
    requires { length instances.now ≤ MOST_INSTANCES }
    ensures { result ≡ status_with canonical unit.now instances.now }
{
    if canonical.is_some() {
        return Status::Done;
    }
    if (unit.max_error_results as usize) < error_count(instances) {
        return Status::FailedErrors;
    }
    if (unit.max_success_results as usize) < success_count(instances) {
        return Status::FailedSuccess;
    }
    if (unit.max_total_results as usize) < instances.len() + need(unit, instances) {
        return Status::FailedTotal;
    }
    Status::Open
}

/// Decides a workunit: its canonical result and its status. Each pair of good reports is compared at most once.
pub fn decide(agreement: &Agreement, unit: &Workunit, instances: &[Instance]) -> Decided
    requires { length instances.now ≤ MOST_INSTANCES }
    ensures { result ≡ decided agreement.now unit.now instances.now }
{
    let canonical = canonical(agreement, unit, instances);
    Decided {
        canonical,
        status: status_with(canonical, unit, instances),
    }
}

/// The status of a workunit.
pub fn status(agreement: &Agreement, unit: &Workunit, instances: &[Instance]) -> Status
    requires { length instances.now ≤ MOST_INSTANCES }
    ensures { result ≡ status agreement.now unit.now instances.now }
{
    decide(agreement, unit, instances).status
}

/// The verdict on one of the workunit's instances, by the number of the canonical result.
pub fn verdict_by(
    agreement: &Agreement,
    instances: &[Instance],
    canonical: Option<usize>,
    instance: &Instance,
) -> Option<Verdict>
    ensures { result ≡ verdict_by agreement.now instances.now canonical instance.now }
{
    let Some(number) = canonical else {
        return None;
    };
    let Some(outcome) = &instance.report else {
        return None;
    };
    if !outcome.is_judged_success() {
        return None;
    }
    if agree(
        agreement,
        outcome.output.as_str(),
        output_at(instances, number),
    ) {
        Some(Verdict::Valid)
    } else {
        Some(Verdict::Invalid)
    }
}

/// The verdict on one of the workunit's instances. There is none without a judged success, or while the workunit has no
/// canonical result.
pub fn verdict(
    agreement: &Agreement,
    unit: &Workunit,
    instances: &[Instance],
    instance: &Instance,
) -> Option<Verdict>
    requires { length instances.now ≤ MOST_INSTANCES }
    ensures { result ≡ verdict agreement.now unit.now instances.now instance.now }
{
    verdict_by(
        agreement,
        instances,
        canonical(agreement, unit, instances),
        instance,
    )
}

/// How the outputs of the application of this name are compared; if there is none, exactly.
pub fn agreement_by(apps: &[App], name: &str) -> Agreement
    ensures { result ≡ agreement_by apps.now name.now }
{
    match apps.iter().find(|app| app.name.is(name)) {
        None => Agreement::Exact,
        Some(app) => app.agreement,
    }
}

/// The status of a workunit with its instances, if these are the applications.
pub fn book_status(apps: &[App], book: &UnitBook) -> Status
    requires { length book.now.instances ≤ MOST_INSTANCES }
    ensures { result ≡ book_status apps.now book.now }
{
    status(
        &agreement_by(apps, book.unit.app.as_str()),
        &book.unit,
        book.instances.as_slice(),
    )
}

/// Whether a verdict says that the result is valid.
pub fn is_valid(verdict: Option<Verdict>) -> bool
    ensures { result ≡ is_valid verdict }
{
    match verdict {
        Some(Verdict::Valid) => true,
        Some(Verdict::Invalid) | None => false,
    }
}
