//! Reports with the same output: the first of them stands for all, so that outputs are compared as numbers.

ghost use Rattle.std.specs.Prelude.{◌≡◌, ◌<◌, ◌≤◌, ◌+◌, [], true, None, length, take, slice_index};
ghost use Rattle.std.specs.Cmp.Lexicographic.{slice_cmp};
ghost use Rattle.std.specs.List.Sorted.{IsBinarySearchResult, IsSearchInRange};
ghost use Rattle.std.specs.Ordering.{nat_cmp};
ghost use Rattle.sched_book.specs.Alike.{first_with, first_alike, AreFirsts};
ghost use Rattle.sched_book.specs.Count.{output_of};
ghost use Rattle.sched_book.specs.Near.{number_in};
ghost use Rattle.sched_book.specs.declared.rows.Agreement.{Agreement};

use crate::count::output_at;
use crate::instance::Instance;
use crate::limits::MOST_INSTANCES;
use arrayvec::ArrayVec;
use std::cmp::Ordering;

/// What is known of a report by those seen before it.
#[derive(Drop)]
pub(crate) struct Seen {
    /// The report that stands for it: the first with its output, or itself if its output is compared as a whole number.
    pub(crate) first: usize,
    /// Whether none of those before it agrees with it.
    pub(crate) is_new: bool,
}

/// The first report with each output that is compared as a text, of the reports seen so far.
#[derive(Drop)]
pub(crate) struct Firsts {
    /// The numbers of their instances, in the order of the outputs.
    pub(crate) numbers: ArrayVec<usize, MOST_INSTANCES>,
}

impl Firsts {
    /// Those of no report.
    pub(crate) fn new() -> Firsts
        ensures { result.numbers.items ≡ [] }
    {
        Firsts {
            numbers: ArrayVec::new(),
        }
    }

    /// The index of the report with this output, or the one at which it would be inserted.
    fn search(&self, instances: &[Instance], output: &str) -> Result<usize, usize>
        ensures place { IsBinarySearchResult (λ j. slice_cmp nat_cmp (output_of instances.now j) output.now) self.now.numbers.items result }
        ensures within { IsSearchInRange result (length self.now.numbers.items) }
    {
        self.numbers.as_slice().binary_search_by(
            |number: &usize| -> Ordering
                ensures { result ≡ slice_cmp nat_cmp (output_of instances.entry.now number.now) output.entry.now }
            { output_at(instances, *number).cmp(output) },
        )
    }

    /// Sees the report at an index, whose output is compared as a text, once those before it were seen.
    pub(crate) fn see(&mut self, instances: &[Instance], reports: &[usize], index: usize) -> Seen
        requires within { index < length reports.now }
        requires room { (length self.old.numbers.items ≤ index) × (index < MOST_INSTANCES) }
        ensures value { (a : Agreement) → AreFirsts a instances.now (take index reports.now) self.old.numbers.items
            → number_in a (output_of instances.now (slice_index reports.now index)) ≡ None
            → result.first ≡ first_alike instances.now reports.now (slice_index reports.now index) }
        ensures new { (a : Agreement) → AreFirsts a instances.now (take index reports.now) self.old.numbers.items
            → number_in a (output_of instances.now (slice_index reports.now index)) ≡ None
            → result.is_new ≡ true → first_with instances.now (take index reports.now) (output_of instances.now (slice_index reports.now index)) ≡ None }
        ensures seen { (a : Agreement) → AreFirsts a instances.now (take index reports.now) self.old.numbers.items
            → number_in a (output_of instances.now (slice_index reports.now index)) ≡ None
            → AreFirsts a instances.now (take (index + 1) reports.now) self.new.numbers.items }
        ensures few { length self.new.numbers.items ≤ index + 1 }
    {
        let number = reports[index];
        match self.search(instances, output_at(instances, number)) {
            Ok(spot) => Seen {
                first: self.numbers.as_slice()[spot],
                is_new: false,
            },
            Err(spot) => {
                self.numbers.insert(spot, number);
                Seen {
                    first: number,
                    is_new: true,
                }
            }
        }
    }
}
