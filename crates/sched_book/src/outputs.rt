//! The outputs of good reports: whether a further report agrees with one before it.

ghost use Rattle.std.specs.Prelude.{◌≡◌, ◌<◌, ◌≤◌, ◌+◌, [], true, false, length, take, slice_index};
ghost use Rattle.std.specs.List.{All};
ghost use Rattle.sched_book.specs.Ballots.{stands_for, AreOutputsOf};
ghost use Rattle.sched_book.specs.Count.{agree, output_of};
ghost use Rattle.sched_book.specs.Limits.{distance_of};
ghost use Rattle.sched_book.specs.Near.{number_in};

use crate::alike::{Firsts, Seen};
use crate::instance::Instance;
use crate::limits::MOST_INSTANCES;
use crate::near::Numbers;
use crate::rows::Agreement;

/// How far apart whole numbers that agree may be.
pub(crate) fn distance_of(agreement: &Agreement) -> u32
    ensures { result ≡ distance_of agreement.now }
{
    match agreement {
        Agreement::Exact => 0,
        Agreement::Within(distance) => *distance,
    }
}

/// The outputs of the reports seen so far.
#[derive(Drop)]
pub(crate) struct Outputs {
    /// The first report with each output that is compared as a text.
    pub(crate) firsts: Firsts,
    /// The whole numbers as which the others are compared.
    pub(crate) numbers: Numbers,
}

impl Outputs {
    /// Those of no report.
    pub(crate) fn new() -> Outputs
        ensures firsts { result.firsts.numbers.items ≡ [] }
        ensures numbers { result.numbers.numbers.items ≡ [] }
    {
        Outputs {
            firsts: Firsts::new(),
            numbers: Numbers::new(),
        }
    }

    /// Sees the report at an index, once those before it were seen. A whole number is looked up among the whole numbers
    /// alone: no other output agrees with it.
    pub(crate) fn see(
        &mut self,
        agreement: &Agreement,
        value: Option<i64>,
        instances: &[Instance],
        reports: &[usize],
        index: usize,
    ) -> Seen
        requires within { index < length reports.now }
        requires few { length reports.now ≤ MOST_INSTANCES }
        requires value { value ≡ number_in agreement.now (output_of instances.now (slice_index reports.now index)) }
        requires seen { AreOutputsOf agreement.now instances.now reports.now index self.old }
        ensures first { result.first ≡ stands_for agreement.now instances.now reports.now (slice_index reports.now index) }
        ensures new { result.is_new ≡ true → All (λ i. agree agreement.now (output_of instances.now i) (output_of instances.now (slice_index reports.now index)) ≡ false) (take index reports.now) }
        ensures seen { AreOutputsOf agreement.now instances.now reports.now (index + 1) self.new }
    {
        match value {
            None => self.firsts.see(instances, reports, index),
            Some(value) => Seen {
                first: reports[index],
                is_new: !self.numbers.see(distance_of(agreement), value),
            },
        }
    }
}
