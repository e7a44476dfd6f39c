//! From when on something is due: the least deadline of the instances that are held.

ghost use Rattle.std.specs.Prelude.{◌≡◌};
ghost use Rattle.table_reading.specs.Deadlines.{lowered_to, lowered_to_each};

use sched_book::Instance;
use sched_book::limits::MOST_DELAY;
use sched_book::moment::LAST_MOMENT;

/// The last deadline that an instance may have, in seconds since 1970-01-01T00:00:00Z.
pub(crate) const LAST_DEADLINE: u64 = LAST_MOMENT + MOST_DELAY as u64;

/// A moment, lowered to the deadline of an instance that is held.
pub fn lowered_to(due_from: u64, instance: &Instance) -> u64
    ensures { result ≡ lowered_to due_from instance.now }
{
    match &instance.owner {
        Some(owner) if instance.is_held() => due_from.min(owner.deadline),
        Some(_) | None => due_from,
    }
}

/// A moment, lowered to the least deadline of those instances that are held.
pub(crate) fn lowered_to_each(due_from: u64, instances: &[Instance]) -> u64
    ensures { result ≡ lowered_to_each due_from instances.now }
{
    let mut lower = due_from;
    for instance in instances {
        lower = lowered_to(lower, instance);
    }
    lower
}
