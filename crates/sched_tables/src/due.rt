//! What is due. It is looked for from the moment `due_from` on, since nothing is due before it.

ghost use Rattle.std.specs.Prelude.{◌≡◌, fold, IfOk};
ghost use Rattle.sched_book.specs.Places.{overdue};
ghost use Rattle.sched_tables.specs.Held.{IsHonest};
ghost use Rattle.sched_tables.specs.DueFrom.{raised, lowered_by, lowered};
ghost use Rattle.sched_tables.specs.Views.{state_of, world_of, AreKept, AreReadOn};

use crate::tables::Tables;
use sched_book::{Delta, Edit, Place, Unavailable};
use sqlite::Alter;
use std::alloc::Global;
use table_reading::lowered_to;
use texts::Listed;

/// `due_from` after a look-up of what is due at the moment `now`: that moment if nothing is due, and if it is later.
fn raised(due_from: u64, now: u64, due: &[Place]) -> u64
    ensures { result ≡ raised due_from now due.now }
{
    if due.len() == 0 {
        due_from.max(now)
    } else {
        due_from
    }
}

/// `due_from`, lowered to the least deadline that edits give to a held instance.
fn lowered_by_edits(due_from: u64, edits: &[Edit]) -> u64
    ensures { result ≡ fold lowered_by due_from edits.now }
{
    let mut lower = due_from;
    for edit in edits {
        if let Edit::Instance { row, .. } = edit {
            lower = lowered_to(lower, row);
        }
    }
    lower
}

/// `due_from`, lowered to the least deadline that changes give to a held instance. New rows give none.
pub(crate) fn lowered(due_from: u64, delta: &Delta) -> u64
    ensures { result ≡ lowered due_from delta.now }
{
    match delta {
        Delta::Rows(_) => due_from,
        Delta::Edits(edits) => lowered_by_edits(due_from, edits.as_slice()),
    }
}

impl<S: Alter> Tables<S> {
    /// The places of the held instances whose deadline is before the moment `now`, in order, by a statement over the
    /// deadlines from `due_from` on. If there is none, `due_from` rises to `now`.
    pub(crate) fn read_due(&mut self, alloc: Global, now: u64) -> Result<Listed<Place>, Unavailable>
        ensures reads { AreReadOn S.Store self.old self.new }
        ensures answer { IsHonest (state_of S.Store self.new) → AreKept S.Store self.old → IfOk result (λ r. r ≡ overdue (world_of S.Store self.old) now) }
    {
        let due = table_desk::due_before(alloc, &mut self.conn, self.due_from, now)?;
        self.due_from = raised(self.due_from, now, due.as_slice());
        Ok(due)
    }

    /// Raises `due_from` to the moment for which what is due was last looked up, if nothing that was due then is still
    /// held.
    pub(crate) fn raise_due_from(&mut self, alloc: Global) -> Result<(), Unavailable>
        ensures reads { AreReadOn S.Store self.old self.new }
    {
        if self.due_from < self.asked {
            self.read_due(alloc, self.asked)?;
        }
        Ok(())
    }
}
