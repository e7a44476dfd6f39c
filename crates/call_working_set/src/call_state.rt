//! What a call read, and the edits that it makes.

ghost use Rattle.std.specs.Prelude.{ℕ, ◌≡◌, ◌==◌, ◌++◌, if◌then◌else◌, [], ◌∷◌, Some, IfOk, IfErr, OnOk, OnErr, option_map, is_some, ◌<◌, IsSome};
ghost use Rattle.std.specs.BTreeMap.{get};
ghost use Rattle.std.specs.Option.{option_copied};
ghost use Rattle.std.specs.Ordering.{nat_cmp};
ghost use Rattle.sched_book.specs.Delta.{edited};
ghost use Rattle.sched_book.specs.Limits.{most_instances};
ghost use Rattle.sched_book.specs.declared.cause.Cause.TheVariants.{Memory};
ghost use Rattle.sched_book.specs.declared.delta.Edit.TheVariants as edit;
ghost use Rattle.sched_book.specs.declared.world.World.{World};
ghost use Rattle.call_working_set.specs.WorkingSets.{IsCallStateOf, IsUnitStateAt, IsHostAt, HasPlace, ArePut, AreClassed, AreAllOf};

use crate::unit_state::UnitState;
use sched_book::{
    Cause, Edit, Edits, HostRow, Instance, Invariant, Place, Settings, Unavailable, copy_of,
};
use std::alloc::Global;
use std::collections::BTreeMap;
use texts::{Listed, Memory, Text};

/// The settings, the workunits and the hosts that a call has read, as they are now, and its edits in their order.
#[derive(Drop)]
pub struct CallState {
    pub settings: Settings,
    pub unit_states: BTreeMap<u32, UnitState>,
    pub hosts: BTreeMap<u32, HostRow>,
    pub edits: Edits,
}

impl CallState {
    /// The state of a call that has read its settings and nothing else yet.
    pub fn new(alloc: Global, settings: Settings) -> CallState
        ensures call_state { (w : World) → settings ≡ w.settings → IsCallStateOf w result }
        ensures edits { result.edits ≡ [] }
    {
        CallState {
            settings,
            unit_states: BTreeMap::new(alloc),
            hosts: BTreeMap::new(alloc),
            edits: Listed::new(alloc),
        }
    }

    /// The state of a workunit, if the workunit exists and was read.
    pub fn unit_state(&self, unit: u32) -> Option<&UnitState>
        ensures { option_copied result ≡ get nat_cmp self.now.unit_states unit }
    {
        self.unit_states.get(&unit)
    }

    /// Keeps what is decided of a workunit now, if it was read.
    pub fn decide(&mut self, unit: u32)
        ensures unit_states { (n : ℕ) → get nat_cmp self.new.unit_states n ≡ get nat_cmp self.old.unit_states n }
        ensures hosts { self.new.hosts ≡ self.old.hosts }
        ensures settings { self.new.settings ≡ self.old.settings }
        ensures edits { self.new.edits ≡ self.old.edits }
    {
        if let Some(unit_state) = self.unit_states.get_mut(&unit) {
            unit_state.decide();
        }
    }

    /// The places of the workunits that exist and were read, in order.
    pub fn units(&self, alloc: Global) -> Result<Vec<u32>, Memory>
        ensures { IfOk result (λ units. AreAllOf (get nat_cmp self.now.unit_states) units.items) }
    {
        self.unit_states.keys().copied().collect(alloc)
    }

    /// Keeps what is decided now of each workunit that was read.
    #[tactic(auto, using(crate::proofs::CallStates::call_state_steps))]
    pub fn decide_all(&mut self, alloc: Global) -> Result<(), Memory>
        ensures call_state { (w : World) → IsCallStateOf w self.old → IsCallStateOf w self.new }
        ensures edits { self.new.edits ≡ self.old.edits }
    {
        let units = self.units(alloc)?;
        for unit in &units {
            self.decide(*unit);
        }
        Ok(())
    }

    /// Keeps the state of a workunit that was read.
    #[tactic(auto, using(crate::proofs::CallStates::call_state_steps))]
    pub fn keep_unit_state(&mut self, unit: u32, unit_state: UnitState) -> Result<(), Memory>
        ensures call_state { OnOk result ((w : World) → IsUnitStateAt w (edited w self.old.edits) unit (Some unit_state) → IsCallStateOf w self.old → IsCallStateOf w self.new) }
        ensures kept { OnOk result (get nat_cmp self.new.unit_states unit ≡ Some unit_state) }
        ensures edits { self.new.edits ≡ self.old.edits }
        ensures err { OnErr result ((w : World) → IsCallStateOf w self.old → IsCallStateOf w self.new) }
    {
        self.unit_states.insert(unit, unit_state)?;
        Ok(())
    }

    /// The host of this number, if it was read.
    pub fn host(&self, number: u32) -> Option<&HostRow>
        ensures { option_copied result ≡ get nat_cmp self.now.hosts number }
    {
        self.hosts.get(&number)
    }

    /// Keeps a host as it is now.
    pub fn keep_host(&mut self, number: u32, row: HostRow) -> Result<(), Memory>
        ensures kept { OnOk result ((n : ℕ) → get nat_cmp self.new.hosts n ≡ if number == n then Some row else get nat_cmp self.old.hosts n) }
        ensures err { OnErr result ((n : ℕ) → get nat_cmp self.new.hosts n ≡ get nat_cmp self.old.hosts n) }
        ensures unit_states { self.new.unit_states ≡ self.old.unit_states }
        ensures settings { self.new.settings ≡ self.old.settings }
        ensures edits { self.new.edits ≡ self.old.edits }
    {
        self.hosts.insert(number, row)?;
        Ok(())
    }

    /// Puts an instance in the state of its workunit.
    pub(crate) fn put_on_unit_state(
        &mut self,
        place: Place,
        row: Instance,
    ) -> Result<(), Unavailable>
        ensures ok { OnOk result (ArePut self.old.unit_states self.new.unit_states place row) }
        ensures err { OnErr result ((unit : ℕ) → get nat_cmp self.new.unit_states unit ≡ get nat_cmp self.old.unit_states unit) }
        ensures hosts { self.new.hosts ≡ self.old.hosts }
        ensures settings { self.new.settings ≡ self.old.settings }
        ensures edits { self.new.edits ≡ self.old.edits }
        ensures causes { IsSome (get nat_cmp self.old.unit_states place.unit) → place.number < most_instances → IfErr result (λ u. u.0 ≡ Memory) }
    {
        match self.unit_states.get_mut(&place.unit) {
            None => Err(Unavailable(Cause::Broken(Invariant::ReadBeforePut))),
            Some(unit_state) => unit_state.put(place.number, row),
        }
    }

    /// Puts an instance at a place: it replaces the instance there, or is the next one of its workunit. The workunit
    /// must have a unit state.
    #[tactic(auto, using(crate::proofs::CallStates::call_state_steps))]
    pub fn put_instance(&mut self, place: Place, row: &Instance) -> Result<(), Unavailable>
        ensures call_state { (w : World) → IsCallStateOf w self.old → IsCallStateOf w self.new }
        ensures ok { OnOk result (self.new.edits ≡ self.old.edits ++ edit.Instance place row.now ∷ []) }
        ensures err { OnErr result (self.new.edits ≡ self.old.edits) }
        ensures causes { IsSome (get nat_cmp self.old.unit_states place.unit) → place.number < most_instances → IfErr result (λ u. u.0 ≡ Memory) }
    {
        let pushed = copy_of(row)?;
        let put = copy_of(row)?;
        self.edits.push(Edit::Instance { place, row: pushed })?;
        match self.put_on_unit_state(place, put) {
            Ok(()) => Ok(()),
            Err(failed) => {
                self.edits.drop_last();
                Err(failed)
            }
        }
    }

    /// Grants a version of a class in the state of a workunit.
    pub(crate) fn class_on_unit_state(&mut self, unit: u32, class: &Text) -> Result<(), Unavailable>
        ensures ok { OnOk result (AreClassed self.old.unit_states self.new.unit_states unit class.now) }
        ensures err { OnErr result ((other : ℕ) → get nat_cmp self.new.unit_states other ≡ get nat_cmp self.old.unit_states other) }
        ensures hosts { self.new.hosts ≡ self.old.hosts }
        ensures settings { self.new.settings ≡ self.old.settings }
        ensures edits { self.new.edits ≡ self.old.edits }
        ensures causes { IsSome (get nat_cmp self.old.unit_states unit) → IfErr result (λ u. u.0 ≡ Memory) }
    {
        match self.unit_states.get_mut(&unit) {
            None => Err(Unavailable(Cause::Broken(Invariant::ReadBeforeClass))),
            Some(unit_state) => {
                unit_state.grant(class)?;
                Ok(())
            }
        }
    }

    /// Grants a version of a class for a workunit, which must have a unit state.
    #[tactic(auto, using(crate::proofs::CallStates::call_state_steps))]
    pub fn put_class(&mut self, unit: u32, class: &Text) -> Result<(), Unavailable>
        ensures call_state { (w : World) → IsCallStateOf w self.old → IsCallStateOf w self.new }
        ensures ok { OnOk result (self.new.edits ≡ self.old.edits ++ edit.Class unit class.now ∷ []) }
        ensures err { OnErr result (self.new.edits ≡ self.old.edits) }
        ensures causes { IsSome (get nat_cmp self.old.unit_states unit) → IfErr result (λ u. u.0 ≡ Memory) }
    {
        let pushed = copy_of(class)?;
        self.edits.push(Edit::Class {
            unit,
            class: pushed,
        })?;
        match self.class_on_unit_state(unit, class) {
            Ok(()) => Ok(()),
            Err(failed) => {
                self.edits.drop_last();
                Err(failed)
            }
        }
    }

    /// Puts a host at its number, or at the next.
    #[tactic(auto, using(crate::proofs::CallStates::call_state_steps))]
    pub fn put_host(&mut self, number: u32, row: &HostRow) -> Result<(), Memory>
        ensures call_state { (w : World) → HasPlace (edited w self.old.edits) number → IsCallStateOf w self.old → IsCallStateOf w self.new }
        ensures ok { OnOk result (self.new.edits ≡ self.old.edits ++ edit.Host number row.now ∷ []) }
        ensures err { OnErr result (self.new.edits ≡ self.old.edits) }
    {
        let pushed = copy_of(row)?;
        let kept = copy_of(row)?;
        self.edits.push(Edit::Host {
            number,
            row: pushed,
        })?;
        match self.keep_host(number, kept) {
            Ok(()) => Ok(()),
            Err(failed) => {
                self.edits.drop_last();
                Err(failed)
            }
        }
    }
}
