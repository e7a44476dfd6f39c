//! The leader among good reports: the first that agrees with enough of them. Each pair is compared at most once, by
//! numbers, and only until a front has a leader. A report whose output is new, or whose whole number is far from all before
//! it, is compared with none.

ghost use Rattle.std.specs.Prelude.{◌≡◌, ◌<◌, ◌≤◌, ◌+◌, [], true, false, length, take, drop, map, count_by};
ghost use Rattle.std.specs.List.{All};
ghost use Rattle.sched_book.specs.Ballots.{agrees_with, voted, most_votes, leader_by, IsTallyOf};
ghost use Rattle.sched_book.specs.Count.{output_of, first_leader};
ghost use Rattle.sched_book.specs.Near.{number_in};

use crate::count::output_at;
use crate::instance::Instance;
use crate::limits::MOST_INSTANCES;
use crate::outputs::{Outputs, distance_of};
use crate::rows::Agreement;
use crate::whole_numbers::whole_number_of;
use arrayvec::ArrayVec;

/// A good report, with the votes that it has so far.
#[derive(Clone, Copy, Default)]
struct Ballot {
    /// The number of its instance.
    number: usize,
    /// The report that stands for it: the first with its output, or itself if it has a whole number. Unless both have one,
    /// two outputs are the same exactly if these are.
    first: usize,
    /// The whole number as which its output is compared, if it is.
    value: Option<i64>,
    /// How many of the reports that have joined agree with it.
    votes: usize,
}

/// The whole number as which the output of a report is compared, if it is.
fn value_at(agreement: &Agreement, instances: &[Instance], number: usize) -> Option<i64>
    ensures { result ≡ number_in agreement.now (output_of instances.now number) }
{
    match agreement {
        Agreement::Exact => None,
        Agreement::Within(_) => whole_number_of(output_at(instances, number).as_bytes()),
    }
}

/// Whether the outputs of two reports agree. The voter's number is tested first, so that a loop over ballots tests it
/// once.
fn do_agree(distance: u32, voter: &Ballot, ballot: &Ballot) -> bool
    ensures { result ≡ agrees_with distance voter.now ballot.now }
{
    let Some(number) = voter.value else {
        return ballot.first == voter.first;
    };
    match ballot.value {
        None => ballot.first == voter.first,
        Some(other) => other.abs_diff(number) <= u64::from(distance),
    }
}

/// Counts a voter for a ballot: it has one vote more if the two agree. Returns whether they do.
fn add_vote(distance: u32, voter: &Ballot, ballot: &mut Ballot) -> bool
    requires { ballot.old.votes ≤ MOST_INSTANCES }
    ensures ballot { ballot.new ≡ voted distance voter.now ballot.old }
    ensures agreed { result ≡ agrees_with distance voter.now ballot.old }
{
    let agreed = do_agree(distance, voter, ballot);
    ballot.votes += usize::from(agreed);
    agreed
}

/// What the vote of one report has changed.
#[derive(Drop)]
struct Counted {
    /// How many ballots have one vote more.
    agreed: usize,
    /// The most votes that one of the ballots has by now.
    most_votes: usize,
}

/// Counts the vote of one report.
fn count_vote(distance: u32, voter: &Ballot, ballots: &mut [Ballot]) -> Counted
    requires { All (λ ballot. ballot.votes ≤ MOST_INSTANCES) ballots.old }
    ensures ballots { ballots.new ≡ map (voted distance voter.now) ballots.old }
    ensures agreed { result.agreed ≡ count_by (agrees_with distance voter.now) ballots.old }
    ensures most { result.most_votes ≡ most_votes ballots.new }
{
    let mut agreed = 0;
    let mut most_votes: usize = 0;
    for ballot in ballots.iter_mut() {
        agreed += usize::from(add_vote(distance, voter, ballot));
        most_votes = most_votes.max(ballot.votes);
    }
    Counted { agreed, most_votes }
}

/// Counts the vote of one report. If it is new, it agrees with none of these, and no ballot changes.
fn count_for(
    distance: u32,
    voter: &Ballot,
    ballots: &mut [Ballot],
    most: usize,
    is_new: bool,
) -> Counted
    requires few { All (λ ballot. ballot.votes ≤ MOST_INSTANCES) ballots.old }
    requires most { most ≡ most_votes ballots.old }
    requires new { is_new ≡ true → All (λ ballot. agrees_with distance voter.now ballot ≡ false) ballots.old }
    ensures ballots { ballots.new ≡ map (voted distance voter.now) ballots.old }
    ensures agreed { result.agreed ≡ count_by (agrees_with distance voter.now) ballots.old }
    ensures most { result.most_votes ≡ most_votes ballots.new }
{
    if is_new {
        Counted {
            agreed: 0,
            most_votes: most,
        }
    } else {
        count_vote(distance, voter, ballots)
    }
}

/// The first report with enough votes.
fn leader_of(ballots: &[Ballot], enough: usize) -> Option<usize>
    ensures { result ≡ leader_by enough ballots.now }
{
    match ballots.iter().find(|ballot| enough <= ballot.votes) {
        None => None,
        Some(ballot) => Some(ballot.number),
    }
}

/// The votes among the reports that have joined so far.
#[derive(Drop)]
struct Tally {
    /// Their outputs.
    outputs: Outputs,
    /// Their ballots, in the order in which they joined.
    ballots: ArrayVec<Ballot, MOST_INSTANCES>,
    /// The most votes that one of them has.
    most_votes: usize,
}

impl Tally {
    /// The tally of no report.
    fn new() -> Tally
        ensures firsts { result.outputs.firsts.numbers.items ≡ [] }
        ensures numbers { result.outputs.numbers.numbers.items ≡ [] }
        ensures ballots { result.ballots.items ≡ [] }
        ensures most { result.most_votes ≡ 0 }
    {
        Tally {
            outputs: Outputs::new(),
            ballots: ArrayVec::new(),
            most_votes: 0,
        }
    }

    /// The report at an index joins, once those before it have. It votes for itself, and where it agrees with one
    /// before it, each votes for the other.
    fn join(
        &mut self,
        agreement: &Agreement,
        instances: &[Instance],
        reports: &[usize],
        index: usize,
    )
        requires few { length reports.now ≤ MOST_INSTANCES }
        requires within { index < length reports.now }
        requires tally { IsTallyOf agreement.now instances.now reports.now index self.old }
        ensures { IsTallyOf agreement.now instances.now reports.now (index + 1) self.new }
    {
        let value = value_at(agreement, instances, reports[index]);
        let seen = self
            .outputs
            .see(agreement, value, instances, reports, index);
        let mut ballot = Ballot {
            number: reports[index],
            first: seen.first,
            value,
            votes: 1,
        };
        let counted = count_for(
            distance_of(agreement),
            &ballot,
            self.ballots.as_mut_slice(),
            self.most_votes,
            seen.is_new,
        );
        ballot.votes += counted.agreed;
        self.ballots.push(ballot);
        self.most_votes = counted.most_votes.max(ballot.votes);
    }

    /// The first report with enough votes. The ballots are searched only if one of them has.
    fn leader(&self, enough: usize) -> Option<usize>
        requires { self.now.most_votes ≡ most_votes self.now.ballots.items }
        ensures { result ≡ leader_by enough self.now.ballots.items }
    {
        if self.most_votes < enough {
            None
        } else {
            leader_of(self.ballots.as_slice(), enough)
        }
    }
}

/// The leader of the shortest front that has one, among fronts at least a quorum long.
pub(crate) fn first_leader_among(
    agreement: &Agreement,
    instances: &[Instance],
    enough: usize,
    reports: &[usize],
    quorum: usize,
) -> Option<usize>
    requires few { length reports.now ≤ MOST_INSTANCES }
    requires reached { quorum ≤ length reports.now }
    ensures { result ≡ first_leader agreement.now instances.now enough (take quorum reports.now) (drop quorum reports.now) }
{
    let mut tally = Tally::new();
    for front in 0..reports.len() {
        if quorum <= front {
            let leader = tally.leader(enough);
            if leader.is_some() {
                return leader;
            }
        }
        tally.join(agreement, instances, reports, front);
    }
    tally.leader(enough)
}
