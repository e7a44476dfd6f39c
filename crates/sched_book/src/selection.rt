//! Selections of a world's instances: their places, their number and their credit, found by going through all instances.

ghost use Rattle.std.specs.Prelude.{◌≡◌, ◌≤◌, ◌++◌, ◌&&◌, length, count_by, sum_by, IfOk, OnOk};
ghost use Rattle.std.specs.List.{list_any};
ghost use Rattle.sched_book.specs.Count.{is_valid};
ghost use Rattle.sched_book.specs.Desk.{units_from};
ghost use Rattle.sched_book.specs.Limits.{most_instances, IsBounded};
ghost use Rattle.sched_book.specs.Places.{is_of_user, book_verdict, places_in, places_where};
ghost use Rattle.sched_book.specs.Selections.{includes, credit_of};
ghost use Rattle.sched_book.specs.declared.instance.UnitBook.{UnitBook};

use crate::by_place::nth;
use crate::count::{agreement_by, canonical, is_valid, verdict_by};
use crate::instance::{Instance, Place, UnitBook};
use crate::moment::Moment;
use crate::rows::{App, HostRow};
use crate::world::World;
use std::alloc::Global;
use texts::{Listed, Memory};

/// Which of a world's instances are selected.
#[derive(Clone, Copy)]
pub enum Selection {
    /// Those that were given to the host of this number.
    OwnedBy(u32),
    /// Those that this host holds.
    HeldBy(u32),
    /// Those that were given to a host on a day.
    SentOn { host: u32, day: u64 },
    /// Those that were given to a host of the account at this place.
    OfUser(u32),
    /// Those that are held, and whose deadline is before this moment.
    Overdue(Moment),
}

/// Whether the instance was given to a host of the account at this place.
fn is_of_user(hosts: &[HostRow], account: u32, instance: &Instance) -> bool
    ensures { result ≡ is_of_user hosts.now account instance.now }
{
    let Some(host) = instance.owner_host() else {
        return false;
    };
    match nth(hosts, host) {
        None => false,
        Some(host) => host.account == account,
    }
}

impl Selection {
    /// Whether an instance is selected, if these are the hosts.
    fn includes(&self, hosts: &[HostRow], instance: &Instance) -> bool
        ensures { result ≡ includes hosts.now self.now instance.now }
    {
        match *self {
            Selection::OwnedBy(host) => instance.is_owned_by(host),
            Selection::HeldBy(host) => instance.is_held_by(host),
            Selection::SentOn { host, day } => instance.was_sent(host, day),
            Selection::OfUser(account) => is_of_user(hosts, account, instance),
            Selection::Overdue(now) => instance.is_overdue(now),
        }
    }

    /// How many of these instances are selected.
    fn count_in(&self, hosts: &[HostRow], instances: &[Instance]) -> usize
        ensures value { result ≡ count_by (includes hosts.now self.now) instances.now }
        ensures few { result ≤ length instances.now }
    {
        instances
            .iter()
            .filter(|instance| self.includes(hosts, instance))
            .count()
    }

    /// Whether any of these instances is selected.
    fn is_in(&self, hosts: &[HostRow], instances: &[Instance]) -> bool
        ensures { result ≡ list_any (includes hosts.now self.now) instances.now }
    {
        instances
            .iter()
            .any(|instance| self.includes(hosts, instance))
    }

    /// How many of a workunit's instances are selected and have a valid result.
    fn valid_count(&self, hosts: &[HostRow], apps: &[App], book: &UnitBook) -> usize
        requires { length book.now.instances ≤ most_instances }
        ensures value { result ≡ count_by (λ x. includes hosts.now self.now x && is_valid (book_verdict apps.now book.now x)) book.now.instances }
        ensures few { result ≤ length book.now.instances }
    {
        let instances = book.instances.as_slice();
        let agreement = agreement_by(apps, book.unit.app.as_str());
        let canonical = canonical(&agreement, &book.unit, instances);
        instances
            .iter()
            .filter(|instance| self.includes(hosts, instance)
                && is_valid(verdict_by(&agreement, instances, canonical, instance)))
            .count()
    }

    /// Adds the places of a workunit's selected instances after the others.
    fn add_places(
        &self,
        places: &mut Listed<Place>,
        hosts: &[HostRow],
        unit: u32,
        instances: &[Instance],
    ) -> Result<(), Memory>
        requires { length instances.now ≤ most_instances }
        ensures { OnOk result (places.new ≡ places.old ++ places_in unit 0 (includes hosts.now self.now) instances.now) }
    {
        for (number, instance) in instances.iter().enumerate() {
            if self.includes(hosts, instance) {
                places.push(Place {
                    unit,
                    number: number as u32,
                })?;
            }
        }
        Ok(())
    }

    /// The places of the selected instances, in order.
    pub(crate) fn places(&self, alloc: Global, world: &World) -> Result<Listed<Place>, Memory>
        requires { IsBounded world.now }
        ensures { IfOk result (λ places. places ≡ places_where world.now (λ b x. includes world.now.hosts self.now x)) }
    {
        let mut places = Listed::new(alloc);
        for (index, book) in world.units.as_slice().iter().enumerate() {
            self.add_places(
                &mut places,
                world.hosts.as_slice(),
                index as u32 + 1,
                book.instances.as_slice(),
            )?;
        }
        Ok(places)
    }

    /// How many instances are selected.
    pub(crate) fn count(&self, world: &World) -> u32
        requires { IsBounded world.now }
        ensures { result ≡ sum_by (λ (b : UnitBook). count_by (includes world.now.hosts self.now) b.instances) world.now.units }
    {
        let mut count = 0;
        for book in world.units.as_slice() {
            count += self.count_in(world.hosts.as_slice(), book.instances.as_slice());
        }
        count as u32
    }

    /// The places of the workunits with a selected instance, in order.
    pub(crate) fn units(&self, alloc: Global, world: &World) -> Result<Listed<u32>, Memory>
        requires { IsBounded world.now }
        ensures { IfOk result (λ units. units ≡ units_from 1 (λ (b : UnitBook). list_any (includes world.now.hosts self.now) b.instances) world.now.units) }
    {
        let mut units = Listed::new(alloc);
        for (index, book) in world.units.as_slice().iter().enumerate() {
            if self.is_in(world.hosts.as_slice(), book.instances.as_slice()) {
                units.push(index as u32 + 1)?;
            }
        }
        Ok(units)
    }

    /// The millicredits of the selected instances together.
    pub(crate) fn credit(&self, world: &World) -> u64
        requires { IsBounded world.now }
        ensures { result ≡ sum_by (credit_of world.now.hosts world.now.apps self.now) world.now.units }
    {
        let mut credit = 0;
        for book in world.units.as_slice() {
            let valid = self.valid_count(world.hosts.as_slice(), world.apps.as_slice(), book);
            credit += u64::from(book.unit.credit) * valid as u64;
        }
        credit
    }
}
