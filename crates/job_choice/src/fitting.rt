//! What a host can run, and how long it takes.

ghost use Rattle.std.specs.Prelude.{◌≡◌, ◌<◌};
ghost use Rattle.std.specs.Option.{option_copied};
ghost use Rattle.sched_book.specs.Classes as classes;
ghost use Rattle.sched_book.specs.Places.{option_any};
ghost use Rattle.sched_book.specs.Fits as spec;

use sched_book::{ClassRule, HostRow, Version, Workunit};

/// The seconds that floating-point operations take at a host's speed, rounded up, and at least 1.
pub fn estimate(fpops: u64, p_fpops: u64) -> u64
    requires { 0 < p_fpops }
    ensures { result ≡ spec.estimate fpops p_fpops }
{
    fpops.div_ceil(p_fpops).max(1)
}

/// The same. If the speed is 0, which no host has, the result is 1.
pub fn seconds_at(fpops: u64, p_fpops: u64) -> u64
    ensures { result ≡ spec.estimate fpops p_fpops }
{
    if p_fpops == 0 {
        return 1;
    }
    estimate(fpops, p_fpops)
}

/// Whether a version may do a workunit of this rule.
fn suits(rule: &ClassRule, version: &Version) -> bool
    ensures { result ≡ classes.suits rule.now version.now }
{
    match rule {
        ClassRule::Any | ClassRule::OfFirst => true,
        ClassRule::Only(class) => class.is(version.class.as_str()),
    }
}

/// Whether there is a version, and it may do a workunit of this rule.
fn has_suited(rule: &ClassRule, version: Option<&Version>) -> bool
    ensures { result ≡ option_any (classes.suits rule.now) (option_copied version.entry) }
{
    match version {
        None => false,
        Some(version) => suits(rule, version),
    }
}

/// Whether a host has the memory, disk, speed and a version for a workunit, and the version suits the class that the
/// workunit keeps to. A host of unknown speed counts as fast.
pub fn fits(host: &HostRow, unit: &Workunit, version: Option<&Version>) -> bool
    ensures { result ≡ spec.fits host.now unit.now (option_copied version.entry) }
{
    unit.rsc_memory_bound <= host.m_nbytes
        && unit.rsc_disk_bound <= host.d_free
        && seconds_at(unit.rsc_fpops_est, host.p_fpops) <= u64::from(unit.delay_bound)
        && has_suited(&unit.class_rule, version)
}
