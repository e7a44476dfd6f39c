//! The lines of a host's statement, from a desk.

ghost use Rattle.std.specs.Prelude.{◌≡◌, ◌≤◌, length, IfOk};
ghost use Rattle.sched_book.specs.Desk.{instances_at};
ghost use Rattle.sched_book.specs.Limits.{most_instances};
ghost use Rattle.sched_book.specs.Trusted.{Trusted};
ghost use Rattle.office_files.specs.Statements as spec;

use super::line::StatementLine;
use super::states;
use sched_book::count::verdict;
use sched_book::{Agreement, Desk, Instance, Place, Unavailable, Verdict, Workunit, instance_name};
use std::alloc::Global;
use texts::{Listed, Memory};

/// The line of the instance of this number, with this verdict.
fn line_by(
    alloc: Global,
    verdict: Option<Verdict>,
    unit: &Workunit,
    number: u32,
    instance: &Instance,
) -> Result<StatementLine, Memory>
    ensures { IfOk result (λ line. line ≡ spec.line_by verdict unit.now number instance.now) }
{
    Ok(StatementLine {
        result: instance_name(alloc, unit.name.as_str(), number)?,
        app: unit.app.clone()?,
        sent: states::sent(&instance.owner),
        deadline: states::deadline(&instance.owner),
        server_state: states::server_state(instance),
        outcome: states::outcome(instance),
        validate_state: states::validate_state(verdict, instance),
        credit: states::credit(verdict, unit),
    })
}

/// The line of the instance of this number, if the workunit has it.
fn line_in(
    alloc: Global,
    agreement: Agreement,
    unit: &Workunit,
    instances: &[Instance],
    number: u32,
) -> Result<Option<StatementLine>, Memory>
    requires { length instances.now ≤ most_instances }
    ensures { IfOk result (λ line. line ≡ spec.line_in agreement unit.now instances.now number) }
{
    match instances.get(number as usize) {
        None => Ok(None),
        Some(instance) => {
            let verdict = verdict(&agreement, unit, instances, instance);
            Ok(Some(line_by(alloc, verdict, unit, number, instance)?))
        }
    }
}

/// The line of the instance at this place, whose workunit is this one.
fn line_of<D: Desk>(
    alloc: Global,
    desk: &mut D,
    agreement: Agreement,
    unit: &Workunit,
    place: Place,
) -> Result<Option<StatementLine>, Unavailable>
    ensures reads { D.reads desk.old desk.new }
    ensures answer { Trusted D.Units desk.old desk.new (
        IfOk result (λ line. line ≡ spec.line_in agreement unit.now (instances_at (D.world desk.old) place.unit) place.number)) }
{
    let instances = desk.instances_of(alloc, place.unit)?;
    Ok(line_in(alloc, agreement, unit, instances.as_slice(), place.number)?)
}

/// The line of the instance at this place, if there is one.
fn line_at<D: Desk>(
    alloc: Global,
    desk: &mut D,
    place: Place,
) -> Result<Option<StatementLine>, Unavailable>
    ensures reads { D.reads desk.old desk.new }
    ensures answer { Trusted D.Units desk.old desk.new (
        IfOk result (λ line. line ≡ spec.line_at (D.world desk.old) place)) }
{
    let Some(agreement) = desk.agreement_of(alloc, place.unit)? else {
        return Ok(None);
    };
    match desk.unit(alloc, place.unit)? {
        None => Ok(None),
        Some(unit) => line_of(alloc, desk, agreement, &unit, place),
    }
}

/// The lines of the instances at these places, in order.
pub(super) fn lines_at<D: Desk>(
    alloc: Global,
    desk: &mut D,
    places: &[Place],
) -> Result<Listed<StatementLine>, Unavailable>
    ensures reads { D.reads desk.old desk.new }
    ensures answer { Trusted D.Units desk.old desk.new (
        IfOk result (λ lines. lines ≡ spec.lines_at (D.world desk.old) places.now)) }
{
    let mut lines = Listed::new(alloc);
    for place in places {
        lines.push_some(line_at(alloc, desk, *place)?)?;
    }
    Ok(lines)
}
