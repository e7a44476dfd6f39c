//! What a step of a call is generic in.

ghost use Rattle.std.specs.Prelude.{◌≡◌, ◌≤◌, ◌+◌, ◌++◌, List, [], ◌∷◌, Option, None, length, IfOk, IfErr, OnOk, IfSome, option_map, ℕ, ◌<◌, IsSome};
ghost use Rattle.std.specs.Option.{option_copied};
ghost use Rattle.sched_book.specs.Places.{host_at, held_by, unit_at, unit_named, host_credit, user_credit};
ghost use Rattle.sched_book.specs.Desk.{account_by_key, app_by_name};
ghost use Rattle.sched_book.specs.Delta.{edited, edited_one};
ghost use Rattle.sched_book.specs.Fits.{version_at};
ghost use Rattle.sched_book.specs.Limits.{most_instances};
ghost use Rattle.sched_book.specs.Trusted.{Trusted};
ghost use Rattle.sched_book.specs.declared.delta.Edit.{Edit};
ghost use Rattle.sched_book.specs.declared.delta.Edit.TheVariants as edit;
ghost use Rattle.sched_book.specs.declared.desk.Unavailable.{Unavailable};
ghost use Rattle.sched_book.specs.declared.world.World.{World};
ghost use Rattle.call_working_set.specs.WorkingSets.{IsUnitStateAt, IsReadAt, HasPlace, AreAllOf};
ghost use Rattle.call_working_set.specs.UnitState.{UnitState};

use crate::unit_state::UnitState;
use sched_book::{
    Account, App, HostRow, Instance, Place, Placed, Settings, Unavailable, Units, Version,
};
use std::alloc::Global;
use texts::{Listed, Memory, Text};

/// Who represents the world that a call found, with the edits that the call makes.
///
/// As [`Units`] it answers for the world with the edits made. Its further look-ups are of the world that the call
/// found, except those of workunits and hosts.
pub trait Draft: Units {
    /// The world that the call found.
    ghost entry: { Self → World };

    /// The edits so far.
    ghost edits: { Self → List Edit };

    /// The workunits that were read.
    ghost kept: { Self → ℕ → Option UnitState };

    /// What a step of the call may do to it.
    ghost works: { Self → Self → Type 0 };

    /// What the operator chose.
    fn settings(&self) -> &Settings
        ensures { Self.well_kept self.now → result.now ≡ (entry self.now).settings };

    /// Reads a workunit, unless it was read before.
    fn read(&mut self, alloc: Global, unit: u32) -> Result<(), Unavailable>
        ensures reads { Self.reads self.old self.new }
        ensures answer { Trusted Self.Units self.old self.new (
            OnOk result (IsReadAt (entry self.old) (Self.world self.old) unit (kept self.new unit))) }
        ensures causes { Trusted Self.Units self.old self.new (IfErr result (Self.may_fail self.old)) };

    /// The state of a workunit that was read.
    fn unit_state(&self, unit: u32) -> Option<&UnitState>
        ensures { option_copied result ≡ kept self.now unit };

    /// Keeps what is decided of a workunit now, if it was read, so that its unit state need not decide it each time.
    fn decide(&mut self, unit: u32)
        ensures reads { Self.reads self.old self.new }
        ensures unit_states { (n : ℕ) → kept self.new n ≡ kept self.old n };

    /// The places of the workunits that were read, in order.
    fn units(&self, alloc: Global) -> Result<Vec<u32>, Memory>
        ensures { IfOk result (λ units. AreAllOf (kept self.now) units.items) };

    /// The host of this number, as it is now.
    fn host(&mut self, alloc: Global, number: u32) -> Result<Option<HostRow>, Unavailable>
        ensures reads { Self.reads self.old self.new }
        ensures answer { Trusted Self.Units self.old self.new (IfOk result (λ r. r ≡ host_at (Self.world self.old) number)) }
        ensures causes { Trusted Self.Units self.old self.new (IfErr result (Self.may_fail self.old)) };

    /// Puts an instance at a place: it replaces the instance there, or is the next one of its workunit. The workunit
    /// must have been read.
    fn put_instance(&mut self, place: Place, row: &Instance) -> Result<(), Unavailable>
        ensures works { works self.old self.new }
        ensures put { Trusted Self.Units self.old self.new (
            OnOk result (Self.world self.new ≡ edited_one (Self.world self.old) (edit.Instance place row.now))) }
        ensures edits { OnOk result (edits self.new ≡ edits self.old ++ edit.Instance place row.now ∷ []) }
        ensures causes { Trusted Self.Units self.old self.new (IsSome (kept self.old place.unit) → place.number < most_instances → IfErr result (Self.may_fail self.old)) };

    /// Grants a version of a class for a workunit, which must have been read. If it is marked, it takes the class with
    /// its first one.
    fn put_class(&mut self, unit: u32, class: &Text) -> Result<(), Unavailable>
        ensures works { works self.old self.new }
        ensures put { Trusted Self.Units self.old self.new (
            OnOk result (Self.world self.new ≡ edited_one (Self.world self.old) (edit.Class unit class.now))) }
        ensures edits { OnOk result (edits self.new ≡ edits self.old ++ edit.Class unit class.now ∷ []) }
        ensures causes { Trusted Self.Units self.old self.new (IsSome (kept self.old unit) → IfErr result (Self.may_fail self.old)) };

    /// Replaces the host of this number. Unavailable if there is no such host.
    fn put_host(&mut self, alloc: Global, number: u32, row: &HostRow) -> Result<(), Unavailable>
        ensures works { works self.old self.new }
        ensures put { Trusted Self.Units self.old self.new (
            OnOk result (Self.world self.new ≡ edited_one (Self.world self.old) (edit.Host number row.now))) }
        ensures edits { OnOk result (edits self.new ≡ edits self.old ++ edit.Host number row.now ∷ []) }
        ensures causes { Trusted Self.Units self.old self.new (IsSome (host_at (Self.world self.old) number) → IfErr result (Self.may_fail self.old)) };

    /// Adds a host after the others, before any other edit, and returns its number; none if the limit is reached
    /// hosts.
    fn add_host(&mut self, row: &HostRow, most: u32) -> Result<Option<u32>, Unavailable>
        ensures works { works self.old self.new }
        ensures number { Trusted Self.Units self.old self.new (
            IfOk result (λ n. IfSome n (λ number. (number ≡ length (entry self.old).hosts + 1) × (number ≤ most)))) }
        ensures full { Trusted Self.Units self.old self.new (
            IfOk result (λ n. n ≡ None → (most ≤ length (entry self.old).hosts) × (Self.world self.new ≡ Self.world self.old))) }
        ensures put { Trusted Self.Units self.old self.new (IfOk result (λ n. IfSome n (λ number.
            Self.world self.new ≡ edited_one (Self.world self.old) (edit.Host number row.now)))) }
        ensures edits { IfOk result (λ n. IfSome n (λ number. edits self.new ≡ edits self.old ++ edit.Host number row.now ∷ [])) }
        ensures causes { Trusted Self.Units self.old self.new (edits self.old ≡ [] → IfErr result (Self.may_fail self.old)) };

    /// The places of the instances that the host held when the call came, in order.
    fn held_before(&mut self, alloc: Global, host: u32) -> Result<Listed<Place>, Unavailable>
        ensures reads { Self.reads self.old self.new }
        ensures answer { Trusted Self.Units self.old self.new (IfOk result (λ r. r ≡ held_by (entry self.old) host)) }
        ensures causes { Trusted Self.Units self.old self.new (IfErr result (Self.may_fail self.old)) };

    /// The account that has this authenticator.
    fn account_by_key(
        &mut self,
        alloc: Global,
        authenticator: &str,
    ) -> Result<Option<Placed<Account>>, Unavailable>
        ensures reads { Self.reads self.old self.new }
        ensures answer { Trusted Self.Units self.old self.new (IfOk result (λ r. r ≡ account_by_key (entry self.old) authenticator.now)) }
        ensures causes { Trusted Self.Units self.old self.new (IfErr result (Self.may_fail self.old)) };

    /// The millicredits that the host had when the call came.
    fn credit_of_host(&mut self, host: u32) -> Result<u64, Unavailable>
        ensures reads { Self.reads self.old self.new }
        ensures answer { Trusted Self.Units self.old self.new (IfOk result (λ r. r ≡ host_credit (entry self.old) host)) }
        ensures causes { Trusted Self.Units self.old self.new (IfErr result (Self.may_fail self.old)) };

    /// The millicredits that the user had when the call came.
    fn credit_of_user(&mut self, account: u32) -> Result<u64, Unavailable>
        ensures reads { Self.reads self.old self.new }
        ensures answer { Trusted Self.Units self.old self.new (IfOk result (λ r. r ≡ user_credit (entry self.old) account)) }
        ensures causes { Trusted Self.Units self.old self.new (IfErr result (Self.may_fail self.old)) };

    /// The application of this name.
    fn app_by_name(&mut self, alloc: Global, name: &str) -> Result<Option<Placed<App>>, Unavailable>
        ensures reads { Self.reads self.old self.new }
        ensures answer { Trusted Self.Units self.old self.new (IfOk result (λ r. r ≡ app_by_name (entry self.old) name.now)) }
        ensures causes { Trusted Self.Units self.old self.new (IfErr result (Self.may_fail self.old)) };

    /// The version that a host runs of the application at this place.
    fn version_for(
        &mut self,
        alloc: Global,
        host: &HostRow,
        app: u32,
    ) -> Result<Option<Version>, Unavailable>
        ensures reads { Self.reads self.old self.new }
        ensures answer { Trusted Self.Units self.old self.new (IfOk result (λ r. r ≡ version_at (entry self.old) host.now app)) }
        ensures causes { Trusted Self.Units self.old self.new (IfErr result (Self.may_fail self.old)) };

    // It represents the world that the call found, with the changes made.
    ghost is_edited: { (s : Self) → Self.world s ≡ edited (entry s) (edits s) };

    // The changes are only of instances, of classes of workunits, and of hosts. No workunit gets another name.
    ghost rest_stays: { (s : Self) → Self.well_kept s → Self.world s ≡ record (entry s) { units = (Self.world s).units; hosts = (Self.world s).hosts } };

    ghost names_stay: { (s : Self) → Self.well_kept s → (name : List ℕ) → unit_named (Self.world s) name ≡ unit_named (entry s) name };

    // What was read is as the unit state says. What was not read was not changed.
    ghost unit_states_are: { (s : Self) → Self.well_kept s → (unit : ℕ) → IsUnitStateAt (entry s) (Self.world s) unit (kept s unit) };

    // A read is work that changes nothing. Two pieces of work are together one. Work keeps the world that the call
    // found.
    ghost reads_works: { (s t : Self) → Self.reads s t → works s t };

    ghost reads_edits: { (s t : Self) → Self.reads s t → edits t ≡ edits s };

    ghost works_none: { (s : Self) → works s s };

    ghost works_on: { (r s t : Self) → works r s → works s t → works r t };

    ghost works_honest: { (s t : Self) → works s t → Self.honest t → Self.honest s };

    ghost works_kept: { (s t : Self) → works s t → Self.honest t → Self.well_kept s → Self.well_kept t };

    ghost works_failing: { (s t : Self) → works s t → Self.honest t → Self.well_kept s → (u : Unavailable) → Self.may_fail t u → Self.may_fail s u };

    ghost works_entry: { (s t : Self) → works s t → Self.honest t → Self.well_kept s → entry t ≡ entry s };
}
