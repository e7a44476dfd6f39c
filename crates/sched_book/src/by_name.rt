//! What has a name or is at a place: asked of a desk, or of anything else that knows the workunits.

ghost use Rattle.std.specs.Prelude.{◌≡◌, IfOk, IfErr};
ghost use Rattle.sched_book.specs.Places.{status_at, place_named, place_of_parts};
ghost use Rattle.sched_book.specs.Trusted.{Trusted};

use crate::count;
use crate::desk::{Unavailable, Units};
use crate::instance::{Place, Status};
use crate::names::split_name;
use std::alloc::Global;

/// The status of the workunit at a place; if there is no workunit, it counts as failed.
pub fn status_at<U: Units>(alloc: Global, units: &mut U, unit: u32) -> Result<Status, Unavailable>
    ensures reads { U.reads units.old units.new }
    ensures answer { Trusted U.Units units.old units.new (IfOk result (λ status. status ≡ status_at (U.world units.old) unit)) }
    ensures causes { Trusted U.Units units.old units.new (IfErr result (U.may_fail units.old)) }
{
    let Some(row) = units.unit(alloc, unit)? else {
        return Ok(Status::FailedTotal);
    };
    let Some(agreement) = units.agreement_of(alloc, unit)? else {
        return Ok(Status::FailedTotal);
    };
    let instances = units.instances_of(alloc, unit)?;
    Ok(count::status(&agreement, &row, instances.as_slice()))
}

/// The place of the instance of this number of the workunit of this name, if it exists.
fn place_of_parts<U: Units>(
    alloc: Global,
    units: &mut U,
    name: &str,
    number: u32,
) -> Result<Option<Place>, Unavailable>
    ensures reads { U.reads units.old units.new }
    ensures answer { Trusted U.Units units.old units.new (
        IfOk result (λ place. place ≡ place_of_parts (U.world units.old) (name.now, number))) }
    ensures causes { Trusted U.Units units.old units.new (IfErr result (U.may_fail units.old)) }
{
    let Some(unit) = units.unit_by_name(name)? else {
        return Ok(None);
    };
    match units.instance(alloc, unit, number)? {
        None => Ok(None),
        Some(_) => Ok(Some(Place { unit, number })),
    }
}

/// The place of the instance that a name denotes.
pub fn place_named<U: Units>(
    alloc: Global,
    units: &mut U,
    name: &str,
) -> Result<Option<Place>, Unavailable>
    ensures reads { U.reads units.old units.new }
    ensures answer { Trusted U.Units units.old units.new (
        IfOk result (λ place. place ≡ place_named (U.world units.old) name.now)) }
    ensures causes { Trusted U.Units units.old units.new (IfErr result (U.may_fail units.old)) }
{
    match split_name(name) {
        None => Ok(None),
        Some((unit, number)) => place_of_parts(alloc, units, unit, number),
    }
}
