//! What the reports of one workunit lead to.

ghost use Rattle.std.specs.Prelude.{◌≡◌, ◌≤◌, if◌then◌else◌, length};
ghost use Rattle.sched_book.specs.Count as spec;

use sched_book::limits::MOST_INSTANCES;
use sched_book::{Agreement, Instance, Status, Workunit, count};

/// The number of the workunit's canonical result, if there is one. Take the shortest front of the judged successes that
/// is at least a quorum long, and in which some report agrees with more than half a quorum. It is the first such report.
pub fn canonical(agreement: &Agreement, unit: &Workunit, instances: &[Instance]) -> Option<usize>
    requires { length instances.now ≤ MOST_INSTANCES }
    ensures { result ≡ spec.canonical agreement.now unit.now instances.now }
{
    count::canonical(agreement, unit, instances)
}

/// How many further instances a workunit of this status is to get: as many as it needs if it is open, else none.
pub(crate) fn new_instances(status: Status, unit: &Workunit, instances: &[Instance]) -> usize
    requires { length instances.now ≤ MOST_INSTANCES }
    ensures { result ≡ (if spec.is_open status then spec.need unit.now instances.now else 0) }
{
    if status.is_open() {
        count::need(unit, instances)
    } else {
        0
    }
}
