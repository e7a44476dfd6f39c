//! What became of an instance, in BOINC's numbers.

ghost use Rattle.std.specs.Prelude.{◌≡◌};
ghost use Rattle.sched_book.specs.Places.{deadline_of};
ghost use Rattle.office_files.specs.Statements as spec;

use sched_book::{Instance, Owner, Verdict, Workunit};

/// 5 if an instance is over, by a report or a lapse, and 4 if it is in progress.
pub(super) fn server_state(instance: &Instance) -> u32
    ensures { result ≡ spec.server_state instance.now }
{
    if instance.report.is_some() || instance.lapse.is_some() {
        5
    } else {
        4
    }
}

/// 1 for a success, 3 for a client error; without a report 4 for a lapse, and 0 if nothing is known yet.
pub(super) fn outcome(instance: &Instance) -> u32
    ensures { result ≡ spec.outcome instance.now }
{
    match &instance.report {
        Some(report) if report.success => 1,
        Some(_) => 3,
        None if instance.lapse.is_some() => 4,
        None => 0,
    }
}

/// 1 for a valid result, 2 for an invalid one, 3 for a report that was not judged, and else 0.
pub(super) fn validate_state(verdict: Option<Verdict>, instance: &Instance) -> u32
    ensures { result ≡ spec.validate_state_by verdict instance.now }
{
    match verdict {
        Some(Verdict::Valid) => 1,
        Some(Verdict::Invalid) => 2,
        None if instance.report.is_some() && !instance.is_judged() => 3,
        None => 0,
    }
}

/// The millicredits for a result of this verdict.
pub(super) fn credit(verdict: Option<Verdict>, unit: &Workunit) -> u32
    ensures { result ≡ spec.credit_by verdict unit.now }
{
    match verdict {
        Some(Verdict::Valid) => unit.credit,
        Some(Verdict::Invalid) | None => 0,
    }
}

/// When an instance was sent, in seconds since 1970-01-01T00:00:00Z; 0 if it was not sent.
pub(super) fn sent(owner: &Option<Owner>) -> u64
    ensures { result ≡ spec.sent_of owner.now }
{
    match owner {
        None => 0,
        Some(owner) => owner.sent.seconds(),
    }
}

/// The last second at which an instance's report is in time, since 1970-01-01T00:00:00Z; 0 if it was not sent.
pub(super) fn deadline(owner: &Option<Owner>) -> u64
    ensures { result ≡ deadline_of owner.now }
{
    match owner {
        None => 0,
        Some(owner) => owner.deadline,
    }
}
