//! The instances of one workunit: never more than a workunit may have.

ghost use Rattle.std.specs.Prelude.{◌≡◌, ◌≤◌, length, IfOk, IfErr, OnOk, OnErr, ◌<◌};
ghost use Rattle.sched_book.specs.Delta.{set_at};
ghost use Rattle.sched_book.specs.Limits.{most_instances};
ghost use Rattle.sched_book.specs.declared.cause.Cause.TheVariants.{Memory};

use sched_book::limits::MOST_INSTANCES;
use sched_book::{Cause, Instance, Invariant, Unavailable};
use std::marker::Model;
use texts::{Listed, Memory};

/// The instances of a workunit by number, at most as many as a workunit may have. A contract sees them as the list.
#[derive(Drop)]
pub struct Instances {
    rows: Listed<Instance>,
}

impl Model for Instances {
    ghost use Rattle.std.specs.Prelude.{◌≤◌, List, length};
    ghost use Rattle.sched_book.specs.Limits.{most_instances};
    ghost use Rattle.sched_book.specs.declared.instance.Instance.{Instance};

    ghost Value = { List Instance };

    ghost view = { λ i. i.rows };

    ghost invariant = { λ i. length i.rows ≤ most_instances };
}

impl Instances {
    /// These instances, without a copy.
    pub fn of(rows: Listed<Instance>) -> Instances
        requires { length rows ≤ MOST_INSTANCES }
        ensures { result ≡ rows }
    {
        Instances { rows }
    }

    /// The instances by number.
    pub fn as_slice(&self) -> &[Instance]
        ensures value { result.now ≡ self.now }
        ensures few { length result.now ≤ MOST_INSTANCES }
    {
        self.rows.as_slice()
    }

    /// A copy of them.
    pub fn copied(&self) -> Result<Instances, Memory>
        ensures { IfOk result (λ copy. copy ≡ self.now) }
    {
        Ok(Instances {
            rows: self.rows.clone()?,
        })
    }

    /// A copy of the list.
    pub fn listed(&self) -> Result<Listed<Instance>, Memory>
        ensures copies { IfOk result (λ list. list ≡ self.now) }
        ensures few { IfOk result (λ list. length list ≤ MOST_INSTANCES) }
    {
        self.rows.clone()
    }

    /// Puts an instance at a number: it replaces the instance there, or follows the others. Refused if there would be
    /// too many or there is no memory; the instances are then as before.
    pub fn put(&mut self, number: u32, row: Instance) -> Result<(), Unavailable>
        ensures ok { OnOk result (self.new ≡ set_at self.old number row) }
        ensures err { OnErr result (self.new ≡ self.old) }
        ensures causes { number < MOST_INSTANCES → IfErr result (λ u. u.0 ≡ Memory) }
    {
        let index = number as usize;
        if index < self.rows.len() {
            self.rows.replace(index, row);
            return Ok(());
        }
        if self.rows.len() >= MOST_INSTANCES {
            return Err(Unavailable(Cause::Spoiled(Invariant::InstancesOnWorkingSet)));
        }
        self.rows.push(row)?;
        Ok(())
    }
}
