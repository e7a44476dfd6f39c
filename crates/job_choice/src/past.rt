//! What is known of a user's past: the workunits that the user had an instance of.

ghost use Rattle.std.specs.Prelude.{◌≡◌, is_some, IsTrue, IfOk, IfErr, OnOk};
ghost use Rattle.std.specs.List.{list_any};
ghost use Rattle.std.specs.Option.{option_copied};
ghost use Rattle.sched_book.specs.Places.{is_of_user};
ghost use Rattle.sched_book.specs.Trusted.{Trusted};
ghost use Rattle.sched_book.specs.Skipping.{user_had_at};
ghost use Rattle.job_choice.specs.Past.{look_of, known_had, has_had, may_look, with_look, IsUserPast};
ghost use Rattle.job_choice.specs.declared.past.UserPast.TheVariants.{Whole};

use sched_book::{Desk, Instance, Unavailable};
use std::alloc::Global;
use texts::{Listed, Memory, SeenSet};

/// The most workunits that are looked at one by one. After them the desk is asked for all that the user had.
const MOST_LOOKED_AT: usize = 8;

/// What was found of a workunit that was looked at by itself.
#[derive(Drop)]
pub(crate) struct LookedAt {
    /// The place of the workunit.
    pub(crate) unit: u32,
    /// The user had an instance of it.
    pub(crate) had: bool,
}

/// What is known of the workunits that the user had an instance of.
#[derive(Drop)]
pub(crate) enum UserPast {
    /// Only the workunits that were looked at are known.
    InPart(Listed<LookedAt>),
    /// Every workunit is known: these are all that the user had.
    Whole(SeenSet<u32>),
}

/// What was found out about this workunit, if it was looked at.
fn find_look(looks: &[LookedAt], unit: u32) -> Option<&LookedAt>
    ensures { option_copied result ≡ look_of looks.now unit }
{
    looks.iter().find(|look| look.unit == unit)
}

/// Whether the user had an instance of a workunit that was looked at.
fn had_any(looks: &[LookedAt]) -> bool
    ensures { result ≡ list_any (λ (l : LookedAt). l.had) looks.now }
{
    looks.iter().any(|look| look.had)
}

impl UserPast {
    /// Whether the user had an instance of the workunit at this place; `None` if that is not known.
    pub(crate) fn user_had(&self, unit: u32) -> Option<bool>
        ensures { result ≡ known_had self.now unit }
    {
        match self {
            UserPast::InPart(looks) => find_look(looks.as_slice(), unit).map(|look| look.had),
            UserPast::Whole(had) => Some(had.has(&unit)),
        }
    }

    /// Whether it is known that the user had an instance of some workunit, or everything is known.
    pub(crate) fn has_had(&self) -> bool
        ensures { result ≡ has_had self.now }
    {
        match self {
            UserPast::InPart(looks) => had_any(looks.as_slice()),
            UserPast::Whole(_) => true,
        }
    }

    /// Whether one more workunit may be looked at by itself.
    fn may_look(&self) -> bool
        ensures { result ≡ may_look self.now }
    {
        match self {
            UserPast::InPart(looks) => looks.len() < MOST_LOOKED_AT,
            UserPast::Whole(_) => false,
        }
    }

    /// Notes one more look, unless everything is known.
    fn note(&mut self, look: LookedAt) -> Result<(), Memory>
        ensures { OnOk result (self.new ≡ with_look self.old look) }
    {
        match self {
            UserPast::InPart(looks) => looks.push(look),
            UserPast::Whole(_) => Ok(()),
        }
    }
}

/// Whether the instance was given to a host of the user.
fn is_of_user<D: Desk>(
    alloc: Global,
    desk: &mut D,
    account: u32,
    instance: &Instance,
) -> Result<bool, Unavailable>
    ensures reads { D.reads desk.old desk.new }
    ensures answer { Trusted D.Units desk.old desk.new (
        IfOk result (λ is. is ≡ is_of_user (D.world desk.old).hosts account instance.now)) }
    ensures causes { Trusted D.Units desk.old desk.new (IfErr result (D.may_fail desk.old)) }
{
    let Some(host) = instance.owner_host() else {
        return Ok(false);
    };
    match desk.host_by_id(alloc, host)? {
        None => Ok(false),
        Some(host) => Ok(host.account == account),
    }
}

/// Whether one of the instances was given to a host of the user.
fn is_any_of_user<D: Desk>(
    alloc: Global,
    desk: &mut D,
    account: u32,
    instances: &[Instance],
) -> Result<bool, Unavailable>
    ensures reads { D.reads desk.old desk.new }
    ensures answer { Trusted D.Units desk.old desk.new (
        IfOk result (λ any. any ≡ list_any (is_of_user (D.world desk.old).hosts account) instances.now)) }
    ensures causes { Trusted D.Units desk.old desk.new (IfErr result (D.may_fail desk.old)) }
{
    for instance in instances {
        if is_of_user(alloc, desk, account, instance)? {
            return Ok(true);
        }
    }
    Ok(false)
}

/// Whether the user had an instance of the workunit at this place.
fn user_had<D: Desk>(
    alloc: Global,
    desk: &mut D,
    account: u32,
    unit: u32,
) -> Result<bool, Unavailable>
    ensures reads { D.reads desk.old desk.new }
    ensures answer { Trusted D.Units desk.old desk.new (
        IfOk result (λ had. had ≡ user_had_at (D.world desk.old) account unit)) }
    ensures causes { Trusted D.Units desk.old desk.new (IfErr result (D.may_fail desk.old)) }
{
    let instances = desk.instances_of(alloc, unit)?;
    is_any_of_user(alloc, desk, account, instances.as_slice())
}

/// All workunits that the user had an instance of.
fn units_had<D: Desk>(
    alloc: Global,
    desk: &mut D,
    account: u32,
) -> Result<SeenSet<u32>, Unavailable>
    ensures reads { D.reads desk.old desk.new }
    ensures answer { Trusted D.Units desk.old desk.new (
        IfOk result (λ had. IsUserPast (D.world desk.old) account (Whole had))) }
    ensures causes { Trusted D.Units desk.old desk.new (IfErr result (D.may_fail desk.old)) }
{
    let units = desk.units_of_user(alloc, account)?;
    Ok(SeenSet::of(alloc, units.as_slice())?)
}

/// Learns whether the user had the workunit at this place, if that is not known yet. It looks at the hosts of the
/// workunit's instances or, after [`MOST_LOOKED_AT`] such looks, at the list of all that the user had.
pub(crate) fn look_at<D: Desk>(
    alloc: Global,
    desk: &mut D,
    account: u32,
    past: &mut UserPast,
    unit: u32,
) -> Result<(), Unavailable>
    ensures reads { D.reads desk.old desk.new }
    ensures answer { Trusted D.Units desk.old desk.new (
        OnOk result (IsUserPast (D.world desk.old) account past.old → IsUserPast (D.world desk.old) account past.new)) }
    ensures known { OnOk result (IsTrue (is_some (known_had past.new unit))) }
    ensures causes { Trusted D.Units desk.old desk.new (IfErr result (D.may_fail desk.old)) }
{
    if past.user_had(unit).is_some() {
        return Ok(());
    }
    if !past.may_look() {
        *past = UserPast::Whole(units_had(alloc, desk, account)?);
        return Ok(());
    }
    let had = user_had(alloc, desk, account, unit)?;
    past.note(LookedAt { unit, had })?;
    Ok(())
}
