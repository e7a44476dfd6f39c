//! A desk with the state of a call.

ghost use Rattle.std.specs.Prelude.{◌≡◌};

use crate::call_state::CallState;
use crate::draft::Draft;
use crate::reading::{add_host, put_host, read_host, read_unit_state};
use crate::unit_state::UnitState;
use sched_book::{
    Account, Agreement, App, Desk, HostRow, Instance, Place, Placed, Settings, Unavailable, Units,
    Version, Workunit, copy_of,
};
use std::alloc::Global;
use texts::{Listed, Memory, Text};

/// A view of a desk and of the state of a call over it, for the duration of a step.
pub struct WorkingSet<'a, D> {
    pub desk: &'a mut D,
    pub call_state: &'a mut CallState,
}

impl<'a, D> Drop for WorkingSet<'a, D> {
    fn drop(self)
        ensures desk { self.exit.0.now ≡ self.entry.desk.now }
        ensures call_state { self.exit.1.0.now ≡ self.entry.call_state.now }
    {
        let WorkingSet {
            desk: _,
            call_state: _,
        } = self;
    }
}

impl<'a, D: Desk> Units for WorkingSet<'a, D> {
    ghost use Rattle.std.specs.Prelude.{◌≡◌};
    ghost use Rattle.std.proofs.Common.{rules};
    ghost use Rattle.sched_book.specs.Delta.{edited};
    ghost use Rattle.call_working_set.specs.WorkingSets.{IsCallStateOf};

    ghost world = { λ s. edited (D.world s.desk.now) s.call_state.now.edits };

    ghost honest = { λ s. D.honest s.desk.now };

    ghost well_kept = { λ s. D.well_kept s.desk.now × IsCallStateOf (D.world s.desk.now) s.call_state.now };

    ghost reads = { λ s t. D.reads s.desk.now t.desk.now × (t.call_state.now.edits ≡ s.call_state.now.edits)
        × (D.honest t.desk.now → D.well_kept s.desk.now → IsCallStateOf (D.world s.desk.now) s.call_state.now → IsCallStateOf (D.world s.desk.now) t.call_state.now)
        × (t.desk.ghost_name ≡ s.desk.ghost_name) × (t.call_state.ghost_name ≡ s.call_state.ghost_name) };

    ghost may_fail = { λ s. D.may_fail s.desk.now };

    fn unit_by_name(&mut self, name: &str) -> Result<Option<u32>, Unavailable> {
        self.desk.unit_by_name(name)
    }

    fn unit(&mut self, alloc: Global, unit: u32) -> Result<Option<Workunit>, Unavailable> {
        read_unit_state(alloc, self.desk, self.call_state, unit)?;
        match self.call_state.unit_state(unit) {
            None => Ok(None),
            Some(unit_state) => Ok(Some(unit_state.unit_now()?)),
        }
    }

    fn agreement_of(&mut self, alloc: Global, unit: u32) -> Result<Option<Agreement>, Unavailable> {
        read_unit_state(alloc, self.desk, self.call_state, unit)?;
        match self.call_state.unit_state(unit) {
            None => Ok(None),
            Some(unit_state) => Ok(Some(unit_state.agreement())),
        }
    }

    fn instance(
        &mut self,
        alloc: Global,
        unit: u32,
        number: u32,
    ) -> Result<Option<Instance>, Unavailable> {
        read_unit_state(alloc, self.desk, self.call_state, unit)?;
        match self.call_state.unit_state(unit) {
            None => Ok(None),
            Some(unit_state) => match unit_state.present().get(number as usize) {
                None => Ok(None),
                Some(row) => Ok(Some(copy_of(row)?)),
            },
        }
    }

    fn instances_of(&mut self, alloc: Global, unit: u32) -> Result<Listed<Instance>, Unavailable> {
        read_unit_state(alloc, self.desk, self.call_state, unit)?;
        match self.call_state.unit_state(unit) {
            None => Ok(Listed::new(alloc)),
            Some(unit_state) => Ok(unit_state.present_copied()?),
        }
    }

    ghost reads_none = { λ s. (D.reads_none s.desk.now, Prim.search rules, Prim.search rules, Prim.search rules, Prim.search rules) };

    ghost reads_on = { λ a b c h k. (D.reads_on _ _ _ h.0 k.0, Prim.search rules, Prim.search rules, Prim.search rules, Prim.search rules) };

    ghost stays_honest = { λ a b h k. D.stays_honest _ _ h.0 k };

    ghost stays_kept = { λ a b h k l. (D.stays_kept _ _ h.0 k l.0, Prim.search rules) };

    ghost stays_same = { λ a b h k l. Prim.search rules };

    ghost fails_for_memory = { λ s. D.fails_for_memory s.desk.now };

    ghost stays_failing = { λ s t h k l. D.stays_failing _ _ h.0 k l.0 };
}

impl<'a, D: Desk> Draft for WorkingSet<'a, D> {
    ghost use Rattle.std.specs.Prelude.{◌≡◌};
    ghost use Rattle.std.specs.BTreeMap.{get};
    ghost use Rattle.std.specs.Ordering.{nat_cmp};
    ghost use Rattle.std.proofs.Common.{rules, refl};
    ghost use Rattle.call_working_set.specs.WorkingSets.{IsCallStateOf};

    ghost entry = { λ s. D.world s.desk.now };

    ghost edits = { λ s. s.call_state.now.edits };

    ghost kept = { λ s. get nat_cmp s.call_state.now.unit_states };

    ghost works = { λ s t. D.reads s.desk.now t.desk.now
        × (D.honest t.desk.now → D.well_kept s.desk.now → IsCallStateOf (D.world s.desk.now) s.call_state.now → IsCallStateOf (D.world s.desk.now) t.call_state.now)
        × (t.desk.ghost_name ≡ s.desk.ghost_name) × (t.call_state.ghost_name ≡ s.call_state.ghost_name) };

    fn settings(&self) -> &Settings {
        &self.call_state.settings
    }

    fn read(&mut self, alloc: Global, unit: u32) -> Result<(), Unavailable> {
        read_unit_state(alloc, self.desk, self.call_state, unit)
    }

    fn unit_state(&self, unit: u32) -> Option<&UnitState> {
        self.call_state.unit_state(unit)
    }

    fn decide(&mut self, unit: u32) {
        self.call_state.decide(unit);
    }

    fn units(&self, alloc: Global) -> Result<Vec<u32>, Memory> {
        self.call_state.units(alloc)
    }

    fn host(&mut self, alloc: Global, number: u32) -> Result<Option<HostRow>, Unavailable> {
        read_host(alloc, self.desk, self.call_state, number)
    }

    #[tactic(auto, using(crate::proofs::CallStates::put_steps))]
    fn put_instance(&mut self, place: Place, row: &Instance) -> Result<(), Unavailable> {
        self.call_state.put_instance(place, row)
    }

    #[tactic(auto, using(crate::proofs::CallStates::put_steps))]
    fn put_class(&mut self, unit: u32, class: &Text) -> Result<(), Unavailable> {
        self.call_state.put_class(unit, class)
    }

    #[tactic(auto, using(crate::proofs::CallStates::put_steps))]
    fn put_host(&mut self, alloc: Global, number: u32, row: &HostRow) -> Result<(), Unavailable> {
        put_host(alloc, self.desk, self.call_state, number, row)
    }

    #[tactic(auto, using(crate::proofs::CallStates::put_steps))]
    fn add_host(&mut self, row: &HostRow, most: u32) -> Result<Option<u32>, Unavailable> {
        add_host(self.desk, self.call_state, row, most)
    }

    fn held_before(&mut self, alloc: Global, host: u32) -> Result<Listed<Place>, Unavailable> {
        self.desk.held_by(alloc, host)
    }

    fn account_by_key(
        &mut self,
        alloc: Global,
        authenticator: &str,
    ) -> Result<Option<Placed<Account>>, Unavailable> {
        self.desk.account_by_key(alloc, authenticator)
    }

    fn credit_of_host(&mut self, host: u32) -> Result<u64, Unavailable> {
        self.desk.credit_of_host(host)
    }

    fn credit_of_user(&mut self, account: u32) -> Result<u64, Unavailable> {
        self.desk.credit_of_user(account)
    }

    fn app_by_name(
        &mut self,
        alloc: Global,
        name: &str,
    ) -> Result<Option<Placed<App>>, Unavailable> {
        self.desk.app_by_name(alloc, name)
    }

    fn version_for(
        &mut self,
        alloc: Global,
        host: &HostRow,
        app: u32,
    ) -> Result<Option<Version>, Unavailable> {
        self.desk.version_for(alloc, host, app)
    }

    ghost is_edited = { λ s. refl };

    ghost rest_stays = { λ s kept. kept.1.rest };

    ghost names_stay = { λ s kept. kept.1.names };

    ghost unit_states_are = { λ s kept. kept.1.unit_states };

    ghost reads_works = { λ s t h. (h.0, h.2, h.3, h.4) };

    ghost reads_edits = { λ s t h. h.1 };

    ghost works_none = { λ s. (D.reads_none s.desk.now, Prim.search rules, Prim.search rules, Prim.search rules) };

    ghost works_on = { λ r s t h k. (D.reads_on _ _ _ h.0 k.0, Prim.search rules, Prim.search rules, Prim.search rules) };

    ghost works_honest = { λ s t h k. D.stays_honest _ _ h.0 k };

    ghost works_kept = { λ s t h k l. (D.stays_kept _ _ h.0 k l.0, Prim.search rules) };

    ghost works_failing = { λ s t h k l. D.stays_failing _ _ h.0 k l.0 };

    ghost works_entry = { λ s t h k l. D.stays_same _ _ h.0 k l.0 };
}
