//! How many instances each workunit has, and whether each has a mark, counted while the rows of all three are read.

ghost use Rattle.std.specs.Prelude.{◌≡◌, [], OnOk};
ghost use Rattle.table_meaning.specs.declared.rows.StoredRow.TheVariants as stored;
ghost use Rattle.table_reading.specs.Counting.{noted, none_noted};

use sched_book::limits::MOST_INSTANCES;
use std::alloc::Global;
use table_meaning::rows::{StoredInstance, StoredUnit, StoredUnitMark};
use texts::{Listed, Memory};

/// How many instances each workunit has, if no number below that of its last instance is left out.
#[derive(Drop)]
pub struct UnitCounts {
    /// For each workunit, by its number: the greatest number of its instances plus one. A number above the most
    /// instances that a workunit may have counts as that most.
    pub counts: Listed<u32>,
    /// The number of the workunit of the mark that was read last.
    pub last_mark: u32,
    /// Whether three things hold. The workunits are numbered from 1 in turn. The marks are those of the workunits from
    /// 1 in turn. Each instance is of one of the workunits.
    pub are_in_turn: bool,
}

impl UnitCounts {
    /// Counts with no row read.
    pub(crate) fn new(alloc: Global) -> UnitCounts
        ensures { result ≡ none_noted }
    {
        UnitCounts {
            counts: Listed::new(alloc),
            last_mark: 0,
            are_in_turn: true,
        }
    }

    /// Notes the next row of the table of workunits.
    pub(crate) fn note_unit(&mut self, row: &StoredUnit) -> Result<(), Memory>
        ensures { OnOk result (self.new ≡ noted self.old (stored.Unit row.now)) }
    {
        let in_turn = (row.id as usize).checked_sub(1) == Some(self.counts.len());
        self.are_in_turn = self.are_in_turn && in_turn;
        self.counts.push(0)?;
        Ok(())
    }

    /// Notes the next row of the table of marks.
    pub(crate) fn note_mark(&mut self, row: &StoredUnitMark)
        ensures { self.new ≡ noted self.old (stored.UnitMark row.now) }
    {
        let in_turn = row.unit_id.checked_sub(1) == Some(self.last_mark);
        self.are_in_turn = self.are_in_turn && in_turn;
        self.last_mark = row.unit_id;
    }

    /// Notes the row of an instance, after the rows of all workunits.
    pub(crate) fn note_instance(&mut self, row: &StoredInstance)
        ensures { self.new ≡ noted self.old (stored.Instance row.now) }
    {
        let unit = row.unit_id as usize;
        if unit != 0 && unit <= self.counts.len() {
            let next = row.num.min(MOST_INSTANCES as u32) + 1;
            let count = self.counts.as_slice()[unit - 1];
            self.counts.replace(unit - 1, count.max(next));
        } else {
            self.are_in_turn = false;
        }
    }
}
