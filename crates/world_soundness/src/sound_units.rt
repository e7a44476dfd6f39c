//! Whether a workunit with its instances is sound.

ghost use Rattle.std.specs.Prelude.{◌≡◌, ◌==◌, ℕ, ◌+◌, ◌<◌, ◌≤◌, ◌↔◌, IsTrue, IfSome, All, AllPairs, count_by, length, None};
ghost use Rattle.sched_book.specs.Count.{is_judged, report_place};
ghost use Rattle.sched_book.specs.Imports.{has_app};
ghost use Rattle.sched_book.specs.Places.{option_any, user_of};
ghost use Rattle.sched_book.specs.Sound.{AreOfOtherUsers, HasClassOnceGiven, IsBare, HasOwnerAmong, has_place, IsWellUnit, IsSoundUnit};
ghost use Rattle.world_soundness.specs.Soundness.{ArePlacedInTurn, AreWellEach, IsUnitRowWell};

use crate::in_limits::{is_instance_in_limits, is_unit_in_limits};
use sched_book::limits::MOST_INSTANCES;
use sched_book::{App, ClassRule, HostRow, Instance, UnitBook, count, nth};

/// Whether there is an application of this name.
pub(crate) fn has_app(apps: &[App], name: &str) -> bool
    ensures { result ≡ has_app apps.now name.now }
{
    apps.iter().any(|app| app.name.is(name))
}

/// The place of the instance's judged report.
fn report_place(instance: &Instance) -> Option<u32>
    ensures { result ≡ report_place instance.now }
{
    instance.report.as_ref()?.place
}

/// How many reports were judged.
fn judged_count(instances: &[Instance]) -> usize
    ensures { result ≡ count_by is_judged instances.now }
{
    instances
        .iter()
        .filter(|instance| instance.is_judged())
        .count()
}

/// Whether it has a judged report at this place.
fn is_placed_at(place: usize, instance: &Instance) -> bool
    ensures { result ≡ option_any (λ other. other == place) (report_place instance.now) }
{
    report_place(instance).is_some_and(|other| other as usize == place)
}

/// Whether some judged report has this place.
fn has_place(instances: &[Instance], place: usize) -> bool
    ensures { result ≡ has_place instances.now place }
{
    instances
        .iter()
        .any(|instance| is_placed_at(place, instance))
}

/// Whether some judged report has each place from 1 to `judged`.
fn are_places_without_gap(instances: &[Instance], judged: usize) -> bool
    requires { judged ≤ length instances.now }
    ensures { IsTrue result ↔ ((n : ℕ) → n < judged → IsTrue (has_place instances.now (n + 1))) }
{
    (0..judged).all(|number| has_place(instances, number + 1))
}

/// Whether the place of its judged report, if it has one, is at most `judged`.
fn is_place_within(judged: usize, instance: &Instance) -> bool
    ensures { IsTrue result ↔ IfSome (report_place instance.now) (λ place. place ≤ judged) }
{
    report_place(instance).is_none_or(|place| place as usize <= judged)
}

/// Whether the instance, if it was given to nobody, has neither lapse nor report.
fn is_bare(instance: &Instance) -> bool
    ensures { IsTrue result ↔ IsBare instance.now }
{
    instance.owner.is_some() || instance.lapse.is_none() && instance.report.is_none()
}

/// Whether the host that it was given to, if any, exists.
fn has_owner_among(hosts: &[HostRow], instance: &Instance) -> bool
    ensures { IsTrue result ↔ HasOwnerAmong hosts.now instance.now }
{
    instance
        .owner_host()
        .is_none_or(|host| nth(hosts, host).is_some())
}

/// The place of the account of the host that it was given to.
fn user_of(hosts: &[HostRow], instance: &Instance) -> Option<u32>
    ensures { result ≡ user_of hosts.now instance.now }
{
    let host = nth(hosts, instance.owner_host()?)?;
    Some(host.account)
}

/// Whether two instances were not given to hosts of the same user.
fn are_of_other_users(hosts: &[HostRow], left: &Instance, right: &Instance) -> bool
    ensures { IsTrue result ↔ AreOfOtherUsers hosts.now left.now right.now }
{
    left.owner.is_none() || right.owner.is_none() || user_of(hosts, left) != user_of(hosts, right)
}

/// Whether none of these instances was given to a host of the same user as `instance`.
fn are_all_of_other_users(hosts: &[HostRow], instances: &[Instance], instance: &Instance) -> bool
    ensures { IsTrue result ↔ All (λ x. AreOfOtherUsers hosts.now x instance.now) instances.now }
{
    instances
        .iter()
        .all(|other| are_of_other_users(hosts, other, instance))
}

/// Whether no two instances were given to hosts of the same user.
fn is_one_for_each_user(hosts: &[HostRow], instances: &[Instance]) -> bool
    ensures { IsTrue result ↔ AllPairs (AreOfOtherUsers hosts.now) instances.now }
{
    for (index, instance) in instances.iter().enumerate() {
        if !are_all_of_other_users(hosts, &instances[..index], instance) {
            return false;
        }
    }
    true
}

/// Whether the places of the judged reports are 1 up to their count.
fn are_placed_in_turn(instances: &[Instance]) -> bool
    ensures { IsTrue result ↔ ArePlacedInTurn instances.now }
{
    let judged = judged_count(instances);
    are_places_without_gap(instances, judged)
        && instances
            .iter()
            .all(|instance| is_place_within(judged, instance))
}

/// Whether each instance is in range, its host exists, and it is bare if it was given to nobody.
fn are_well_each(hosts: &[HostRow], instances: &[Instance]) -> bool
    ensures { IsTrue result ↔ AreWellEach hosts.now instances.now }
{
    instances.iter().all(is_bare)
        && instances.iter().all(is_instance_in_limits)
        && instances
            .iter()
            .all(|instance| has_owner_among(hosts, instance))
}

/// Whether the row of a workunit is in range, its application exists, and it has no more instances than it may.
fn is_unit_row_well(apps: &[App], book: &UnitBook) -> bool
    ensures { IsTrue result ↔ IsUnitRowWell apps.now book.now }
{
    book.instances.as_slice().len() <= MOST_INSTANCES
        && has_app(apps, book.unit.app.as_str())
        && is_unit_in_limits(&book.unit)
}

/// Whether a workunit is sound, except that it may lack its class and, if it is open, instances.
fn is_well_unit(hosts: &[HostRow], apps: &[App], book: &UnitBook) -> bool
    ensures { IsTrue result ↔ IsWellUnit hosts.now apps.now book.now }
{
    let instances = book.instances.as_slice();
    is_unit_row_well(apps, book)
        && are_well_each(hosts, instances)
        && are_placed_in_turn(instances)
        && is_one_for_each_user(hosts, instances)
}

/// Whether it was given to nobody.
fn is_unowned(instance: &Instance) -> bool
    ensures { IsTrue result ↔ (instance.now.owner ≡ None) }
{
    instance.owner.is_none()
}

/// Whether a workunit that has not yet taken its class has no instance that was given out.
fn has_class_once_given(book: &UnitBook) -> bool
    ensures { IsTrue result ↔ HasClassOnceGiven book.now }
{
    match &book.unit.class_rule {
        ClassRule::OfFirst => book.instances.as_slice().iter().all(is_unowned),
        ClassRule::Any | ClassRule::Only(_) => true,
    }
}

/// Whether a workunit is sound, if these are the hosts and applications.
pub fn is_sound_unit(hosts: &[HostRow], apps: &[App], book: &UnitBook) -> bool
    ensures { IsTrue result ↔ IsSoundUnit hosts.now apps.now book.now }
{
    is_well_unit(hosts, apps, book)
        && (!count::book_status(apps, book).is_open()
            || count::need(&book.unit, book.instances.as_slice()) == 0)
        && has_class_once_given(book)
}
