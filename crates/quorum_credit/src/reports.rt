//! The reports of a call.

ghost use Rattle.std.specs.Prelude.{◌≡◌, All, ◌==◌, ◌+◌, ◌≤◌, length, map, fold, IfOk, IfErr, OnOk, ◌<◌, IfSome, IsSome};
ghost use Rattle.std.specs.Option.{option_copied};
ghost use Rattle.rpc_records.specs.Ranges.{IsReport};
ghost use Rattle.rpc_records.specs.declared.request.Report.{Report};
ghost use Rattle.sched_book.specs.Limits.{most_instances};
ghost use Rattle.sched_book.specs.Reports.{first_reports, with_report, record_at, record_one};
ghost use Rattle.sched_book.specs.Trusted.{Trusted};
ghost use Rattle.quorum_credit.specs.UnitStates.{reported_on};
ghost use Rattle.quorum_credit.specs.Limited.{FitWithin};
ghost use Rattle.quorum_credit.specs.Taken.{place_among};

use call_working_set::{Draft, UnitState, place_before};
use rpc_records::{Report, Request};
use sched_book::{Instance, Outcome, Place, Unavailable, first_of_each};
use std::alloc::Global;
use texts::{Listed, Memory, Text};

/// Copies of the names of these reports.
fn names_of(alloc: Global, reports: &[&Report]) -> Result<Listed<Text>, Memory>
    ensures { IfOk result (λ names. names ≡ map (λ (r : Report). r.name) (map (λ r. r.now) reports.now)) }
{
    let mut names = Listed::new(alloc);
    for report in reports {
        names.push(report.name.clone()?)?;
    }
    Ok(names)
}

/// The place that the next report of a workunit with these instances gets: none if the workunit had failed.
fn place_among(failed: bool, instances: &[Instance]) -> Option<u32>
    requires { length instances.now ≤ most_instances }
    ensures { result ≡ place_among failed instances.now }
{
    if failed {
        None
    } else {
        let judged = instances
            .iter()
            .filter(|instance| instance.is_judged())
            .count();
        Some(1 + judged as u32)
    }
}

/// The instance with what was reported of it: exit status 0 is a success, any other a client error.
fn with_report(report: &Report, place: Option<u32>, instance: &Instance) -> Result<Instance, Memory>
    ensures { IfOk result (λ row. row ≡ with_report report.now place instance.now) }
{
    Ok(Instance {
        owner: instance.owner,
        lapse: instance.lapse,
        report: Some(Outcome {
            success: report.exit_status == 0,
            output: report.output.clone()?,
            place,
        }),
    })
}

/// The instance of this number in a unit state with one more report, if it awaits one from this host. The report is
/// judged if the workunit had not failed before the call.
fn reported_on(
    host: u32,
    report: &Report,
    unit_state: Option<&UnitState>,
    number: u32,
) -> Result<Option<Instance>, Memory>
    ensures value { IfOk result (λ row. row ≡ reported_on host report.now (option_copied unit_state.entry) number) }
    ensures there { IfOk result (λ row. IfSome row (λ _. IsSome (option_copied unit_state.entry) × (number < most_instances))) }
{
    let Some(unit_state) = unit_state else {
        return Ok(None);
    };
    let failed = unit_state.status_before().has_failed();
    let instances = unit_state.present();
    let Some(instance) = instances.get(number as usize) else {
        return Ok(None);
    };
    if !instance.awaits_report_of(host) {
        return Ok(None);
    }
    let place = place_among(failed, instances);
    Ok(Some(with_report(report, place, instance)?))
}

/// Puts what one report changes of the instance at a place.
fn put_report<S: Draft>(
    alloc: Global,
    working_set: &mut S,
    host: u32,
    report: &Report,
    place: Place,
) -> Result<(), Unavailable>
    ensures works { S.works working_set.old working_set.new }
    ensures put { Trusted S.Units working_set.old working_set.new (
        OnOk result (S.world working_set.new ≡ record_at (S.entry working_set.old) host report.now (S.world working_set.old) place)) }
    ensures fits { Trusted S.Units working_set.old working_set.new (OnOk result (IsReport report.now →
        FitWithin (S.entry working_set.old) (S.edits working_set.old) → FitWithin (S.entry working_set.old) (S.edits working_set.new))) }
    ensures causes { Trusted S.Units working_set.old working_set.new (IfErr result (S.may_fail working_set.old)) }
{
    working_set.read(alloc, place.unit)?;
    match reported_on(
        host,
        report,
        working_set.unit_state(place.unit),
        place.number,
    )? {
        None => Ok(()),
        Some(row) => {
            working_set.put_instance(place, &row)?;
            Ok(())
        }
    }
}

/// Puts what one report changes.
fn take_report<S: Draft>(
    alloc: Global,
    working_set: &mut S,
    host: u32,
    report: &Report,
) -> Result<(), Unavailable>
    ensures works { S.works working_set.old working_set.new }
    ensures taken { Trusted S.Units working_set.old working_set.new (
        OnOk result (S.world working_set.new ≡ record_one (S.entry working_set.old) host (S.world working_set.old) report.now)) }
    ensures fits { Trusted S.Units working_set.old working_set.new (OnOk result (IsReport report.now →
        FitWithin (S.entry working_set.old) (S.edits working_set.old) → FitWithin (S.entry working_set.old) (S.edits working_set.new))) }
    ensures causes { Trusted S.Units working_set.old working_set.new (IfErr result (S.may_fail working_set.old)) }
{
    match place_before(alloc, working_set, report.name.as_str())? {
        None => Ok(()),
        Some(place) => put_report(alloc, working_set, host, report, place),
    }
}

/// Puts what these reports change, in their order.
fn take_in_turn<S: Draft>(
    alloc: Global,
    working_set: &mut S,
    host: u32,
    reports: &[&Report],
) -> Result<(), Unavailable>
    ensures works { S.works working_set.old working_set.new }
    ensures taken { Trusted S.Units working_set.old working_set.new (OnOk result (
        S.world working_set.new ≡ fold (record_one (S.entry working_set.old) host) (S.world working_set.old) (map (λ r. r.now) reports.now))) }
    ensures fits { Trusted S.Units working_set.old working_set.new (OnOk result (All (λ r. IsReport r.now) reports.now →
        FitWithin (S.entry working_set.old) (S.edits working_set.old) → FitWithin (S.entry working_set.old) (S.edits working_set.new))) }
    ensures causes { Trusted S.Units working_set.old working_set.new (IfErr result (S.may_fail working_set.old)) }
{
    for report in reports {
        take_report(alloc, working_set, host, report)?;
    }
    Ok(())
}

/// Puts what the reports of a call from the host of this number change in the working set of the call. Returns the
/// names that are acknowledged, each once, in the order of their first places.
///
/// The first report of each name counts. It is recorded if the instance was given to the host, which has not reported it
/// yet, even if it lapsed. It is judged if the workunit had not failed before the call, and then gets the next place
/// among the workunit's judged reports. Every name is acknowledged, whether its report was recorded or not.
///
/// # Errors
///
/// [`Unavailable`] if there is no memory or the desk is unavailable.
pub fn record_on<S: Draft>(
    alloc: Global,
    working_set: &mut S,
    host: u32,
    request: &Request,
) -> Result<Listed<Text>, Unavailable>
    ensures works { S.works working_set.old working_set.new }
    ensures recorded { Trusted S.Units working_set.old working_set.new (OnOk result (
        S.world working_set.new ≡ fold (record_one (S.entry working_set.old) host) (S.world working_set.old) (first_reports request.now.results))) }
    ensures acked { IfOk result (λ acked. acked ≡ map (λ (r : Report). r.name) (first_reports request.now.results)) }
    ensures fits { Trusted S.Units working_set.old working_set.new (OnOk result (All IsReport request.now.results →
        FitWithin (S.entry working_set.old) (S.edits working_set.old) → FitWithin (S.entry working_set.old) (S.edits working_set.new))) }
    ensures causes { Trusted S.Units working_set.old working_set.new (IfErr result (S.may_fail working_set.old)) }
{
    let firsts = first_of_each(alloc, request.results.as_slice())?;
    let acked = names_of(alloc, firsts.as_slice())?;
    take_in_turn(alloc, working_set, host, firsts.as_slice())?;
    Ok(acked)
}
