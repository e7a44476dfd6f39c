//! How many jobs a host may get on a day.

ghost use Rattle.std.specs.Prelude.{◌≡◌, ◌≤◌, ◌*◌, ◌^◌, min};
ghost use Rattle.sched_book.specs.Settle.{next_quota};

/// A number doubled `times` times, but at most the limit. It stops at the limit, so there are at most 32 doublings.
fn raised(number: u32, times: u32, limit: u32) -> u32
    requires { 1 ≤ number }
    ensures { result ≡ min limit (number * 2 ^ times) }
{
    let mut raised = u64::from(number);
    for _ in 0..times {
        if raised >= u64::from(limit) {
            return limit;
        }
        raised *= 2;
    }
    raised.min(u64::from(limit)) as u32
}

/// The quota of a host after `charges` things that count against it, and then `merits` that count for it. Each charge
/// lowers it by one, to no less than one. Each merit then doubles it, to no more than the limit.
pub fn next_quota(quota: u32, charges: u32, merits: u32, limit: u32) -> u32
    ensures { result ≡ next_quota quota charges merits limit }
{
    let lowered = quota.saturating_sub(charges).max(1);
    raised(lowered, merits, limit)
}
