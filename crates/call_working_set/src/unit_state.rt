//! One workunit in a call state, with what is decided of it.

ghost use Rattle.std.specs.Prelude.{◌≡◌, ◌≤◌, length, IfOk, IfErr, IfSome, OnOk, OnErr, ◌<◌};
ghost use Rattle.sched_book.specs.Count as spec;
ghost use Rattle.sched_book.specs.Classes.{rule_after};
ghost use Rattle.sched_book.specs.Delta.{set_at};
ghost use Rattle.sched_book.specs.Limits.{most_instances};
ghost use Rattle.sched_book.specs.declared.cause.Cause.TheVariants.{Memory};

use crate::instances::Instances;
use sched_book::count::{Decided, decide};
use sched_book::limits::MOST_INSTANCES;
use sched_book::{Agreement, ClassRule, Instance, Status, Unavailable, Workunit, copy_of};
use std::marker::Model;
use texts::{Listed, Memory, Text};

/// A workunit, how its application compares outputs, and its instances, both as they were before the call and as they
/// are now. It keeps what is decided of both. A contract sees the rest, from which the decisions follow.
#[derive(Drop)]
pub struct UnitState {
    unit: Workunit,
    rule: ClassRule,
    agreement: Agreement,
    before: Instances,
    /// None as long as they are as before.
    changed: Option<Instances>,
    decided_before: Decided,
    /// None if the instances were changed since they were decided, so that they may count differently.
    decided_now: Option<Decided>,
}

impl Model for UnitState {
    ghost use Rattle.std.specs.Prelude.{◌≡◌, IfSome, unwrap_or};
    ghost use Rattle.sched_book.specs.Count.{decided};
    ghost use Rattle.call_working_set.specs.UnitState.{UnitState};

    ghost Value = { UnitState };

    ghost view = { λ l. record { unit = l.unit; rule = l.rule; agreement = l.agreement; before = l.before; present = unwrap_or l.changed l.before } };

    ghost invariant = { λ l. (l.decided_before ≡ decided l.agreement l.unit l.before)
        × IfSome l.decided_now (λ d. d ≡ decided l.agreement l.unit (unwrap_or l.changed l.before)) };
}

impl UnitState {
    /// The state of a workunit that has these instances when the call comes.
    pub fn new(
        unit: Workunit,
        agreement: Agreement,
        instances: Instances,
    ) -> Result<UnitState, Memory>
        ensures { IfOk result (λ unit_state. unit_state ≡ record { unit = unit; rule = unit.class_rule; agreement = agreement; before = instances; present = instances }) }
    {
        let rule = copy_of(&unit.class_rule)?;
        let decided = decide(&agreement, &unit, instances.as_slice());
        Ok(UnitState {
            unit,
            rule,
            agreement,
            before: instances,
            changed: None,
            decided_before: decided,
            decided_now: Some(decided),
        })
    }

    /// The row as it was before the call.
    pub fn unit(&self) -> &Workunit
        ensures { result.now ≡ self.now.unit }
    {
        &self.unit
    }

    /// The row as it is now.
    pub fn unit_now(&self) -> Result<Workunit, Memory>
        ensures { IfOk result (λ unit. unit ≡ record self.now.unit { class_rule = self.now.rule }) }
    {
        let mut unit = copy_of(&self.unit)?;
        unit.class_rule = copy_of(&self.rule)?;
        Ok(unit)
    }

    /// Which versions may do the workunit now. A call changes nothing else in a row.
    pub fn rule(&self) -> &ClassRule
        ensures { result.now ≡ self.now.rule }
    {
        &self.rule
    }

    /// How outputs are compared.
    pub fn agreement(&self) -> Agreement
        ensures { result ≡ self.now.agreement }
    {
        self.agreement
    }

    /// The instances as they were before the call.
    pub fn before(&self) -> &[Instance]
        ensures value { result.now ≡ self.now.before }
        ensures few { length result.now ≤ MOST_INSTANCES }
    {
        self.before.as_slice()
    }

    /// The instances as they are now.
    pub fn present(&self) -> &[Instance]
        ensures value { result.now ≡ self.now.present }
        ensures few { length result.now ≤ MOST_INSTANCES }
    {
        match &self.changed {
            None => self.before.as_slice(),
            Some(instances) => instances.as_slice(),
        }
    }

    /// A copy of the instances as they are now.
    pub fn present_copied(&self) -> Result<Listed<Instance>, Memory>
        ensures copies { IfOk result (λ list. list ≡ self.now.present) }
        ensures few { IfOk result (λ list. length list ≤ MOST_INSTANCES) }
    {
        match &self.changed {
            None => self.before.listed(),
            Some(instances) => instances.listed(),
        }
    }

    /// What was decided of the workunit before the call.
    pub fn decided_before(&self) -> Decided
        ensures { result ≡ spec.decided self.now.agreement self.now.unit self.now.before }
    {
        self.decided_before
    }

    /// The workunit's status before the call.
    pub fn status_before(&self) -> Status
        ensures { result ≡ spec.status self.now.agreement self.now.unit self.now.before }
    {
        self.decided_before.status
    }

    /// What is decided of the workunit now.
    pub fn decided_now(&self) -> Decided
        ensures { result ≡ spec.decided self.now.agreement self.now.unit self.now.present }
    {
        match self.decided_now {
            Some(decided) => decided,
            None => decide(&self.agreement, &self.unit, self.present()),
        }
    }

    /// Keeps what is decided of the workunit now, so that it need not be decided each time.
    pub fn decide(&mut self)
        ensures { self.new ≡ self.old }
    {
        self.decided_now = Some(self.decided_now());
    }

    /// What is decided once this instance is at a number, if that is known: as now, if it counts like the one there.
    fn decided_with(&self, number: u32, row: &Instance) -> Option<Decided>
        ensures { IfSome result (λ d. d ≡ spec.decided self.now.agreement self.now.unit (set_at self.now.present number row.now)) }
    {
        match self.present().get(number as usize) {
            Some(instance) if instance.counts_like(row) => self.decided_now,
            _ => None,
        }
    }

    /// Puts an instance at a number: it replaces the instance there, or follows the others. Refused if there would be
    /// too many or there is no memory; the unit state is then as before.
    pub fn put(&mut self, number: u32, row: Instance) -> Result<(), Unavailable>
        ensures ok { OnOk result (self.new ≡ record self.old { present = set_at self.old.present number row }) }
        ensures err { OnErr result (self.new ≡ self.old) }
        ensures causes { number < MOST_INSTANCES → IfErr result (λ u. u.0 ≡ Memory) }
    {
        let decided = self.decided_with(number, &row);
        match &mut self.changed {
            Some(instances) => instances.put(number, row)?,
            None => {
                let mut instances = self.before.copied()?;
                instances.put(number, row)?;
                self.changed = Some(instances);
            }
        }
        self.decided_now = decided;
        Ok(())
    }

    /// Grants a version of a class: a marked workunit takes the class with its first one. If there is no memory, the
    /// unit state is as before.
    pub fn grant(&mut self, class: &Text) -> Result<(), Memory>
        ensures ok { OnOk result (self.new ≡ record self.old { rule = rule_after self.old.rule class.now }) }
        ensures err { OnErr result (self.new ≡ self.old) }
    {
        self.rule = self.rule.after(class)?;
        Ok(())
    }
}
