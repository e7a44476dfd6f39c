//! What settlement counts for and against the hosts of instances, and the credit that they get from it.

ghost use Rattle.std.specs.Prelude.{◌≡◌, ◌≤◌, ◌++◌, Some, map, IfOk, IfErr, OnOk};
ghost use Rattle.sched_book.specs.Count.{is_invalid, verdict_by};
ghost use Rattle.sched_book.specs.Settle.{is_late};
ghost use Rattle.sched_book.specs.Trusted.{Trusted};
ghost use Rattle.quorum_credit.specs.UnitStates.{scores_on};
ghost use Rattle.quorum_credit.specs.Scores.{one_if_new, charges_between, credit_between};
ghost use Rattle.quorum_credit.specs.Scoring.{owned_standing, standing_of, score_of, scores_from, scores_at, scores_of_units};
ghost use Rattle.quorum_credit.specs.declared.scores.Score.{Score};

use call_working_set::{Draft, UnitState};
use sched_book::{Agreement, Instance, Lapse, Owner, Unavailable, Verdict, count};
use std::alloc::Global;
use texts::{Listed, Memory};

/// The standing of an instance: what settlement counts by.
#[derive(Clone, Copy, Debug, PartialEq, Eq)]
pub(crate) struct Standing {
    /// It has a judged report of a client error.
    pub has_error: bool,
    /// It lapsed at its deadline.
    pub is_late: bool,
    pub verdict: Option<Verdict>,
}

/// What is new of one instance of a host. At least one thing counts for the host or against it.
#[derive(Clone, Copy, Debug, PartialEq, Eq)]
pub struct Score {
    pub host: u32,
    /// How much counts against the host.
    pub charges: u32,
    /// How much counts for it.
    pub merits: u32,
    /// The millicredits that the host gets from it: those of the workunit if its result is valid now and was not before,
    /// else 0.
    pub credit: u32,
}

/// The host that an instance was given to, and the standing of the instance.
#[derive(Clone, Copy)]
struct OwnedStanding {
    owner: Option<Owner>,
    standing: Standing,
}

/// Whether a lapse is one at the deadline.
fn is_late(lapse: Option<Lapse>) -> bool
    ensures { result ≡ is_late lapse }
{
    match lapse {
        Some(Lapse::Late) => true,
        Some(Lapse::Dropped) | None => false,
    }
}

/// The host that the instance was given to, and its standing with this verdict.
fn owned_standing(verdict: Option<Verdict>, instance: &Instance) -> OwnedStanding
    ensures { result ≡ owned_standing verdict instance.now }
{
    OwnedStanding {
        owner: instance.owner,
        standing: Standing {
            has_error: instance.is_judged_error(),
            is_late: is_late(instance.lapse),
            verdict,
        },
    }
}

/// The standings of the instances of a workunit, by the number of the canonical result.
fn standings_by(
    alloc: Global,
    agreement: &Agreement,
    canonical: Option<usize>,
    instances: &[Instance],
) -> Result<Vec<OwnedStanding>, Memory>
    ensures { IfOk result (λ rows. rows.items ≡ map (λ x. owned_standing (verdict_by agreement.now instances.now canonical x) x) instances.now) }
{
    instances
        .iter()
        .map(|instance| {
            owned_standing(
                count::verdict_by(agreement, instances, canonical, instance),
                instance,
            )
        })
        .collect(alloc)
}

/// The standing of the instance of a number among these.
fn standing_of(rows: &[OwnedStanding], number: usize) -> Standing
    ensures { result ≡ standing_of rows.now number }
{
    match rows.get(number) {
        None => Standing {
            has_error: false,
            is_late: false,
            verdict: None,
        },
        Some(row) => row.standing,
    }
}

/// One if a test passes that did not pass before.
fn one_if_new(new: bool, old: bool) -> u32
    ensures value { result ≡ one_if_new new old }
    ensures small { result ≤ 1 }
{
    if new && !old { 1 } else { 0 }
}

/// Whether a verdict says that the result is invalid.
fn is_invalid(verdict: Option<Verdict>) -> bool
    ensures { result ≡ is_invalid verdict }
{
    match verdict {
        Some(Verdict::Invalid) => true,
        Some(Verdict::Valid) | None => false,
    }
}

/// What newly counts against the host.
fn charges_between(old: Standing, new: Standing) -> u32
    ensures { result ≡ charges_between old new }
{
    one_if_new(new.has_error, old.has_error)
        + one_if_new(new.is_late, old.is_late)
        + one_if_new(is_invalid(new.verdict), is_invalid(old.verdict))
}

/// The new millicredits: those of the workunit if the result is valid now and was not before.
fn credit_between(credit: u32, old: Standing, new: Standing) -> u32
    ensures { result ≡ credit_between credit old new }
{
    if count::is_valid(new.verdict) && !count::is_valid(old.verdict) {
        credit
    } else {
        0
    }
}

/// What is new of an instance in a workunit of this credit; none if it has no owner or nothing is new. If nothing
/// counts, there is no new credit either.
fn score_of(credit: u32, old: Standing, new: &OwnedStanding) -> Option<Score>
    ensures { result ≡ score_of credit old new.now }
{
    let owner = new.owner?;
    let score = Score {
        host: owner.host,
        charges: charges_between(old, new.standing),
        merits: one_if_new(
            count::is_valid(new.standing.verdict),
            count::is_valid(old.verdict),
        ),
        credit: credit_between(credit, old, new.standing),
    };
    if score.charges == 0 && score.merits == 0 {
        None
    } else {
        Some(score)
    }
}

/// Adds the scores of the instances of a workunit of this credit after the others.
fn push_scores(
    scores: &mut Listed<Score>,
    credit: u32,
    old: &[OwnedStanding],
    new: &[OwnedStanding],
) -> Result<(), Memory>
    ensures { OnOk result (scores.new ≡ scores.old ++ scores_from credit old.now 0 new.now) }
{
    for (number, row) in new.iter().enumerate() {
        if let Some(score) = score_of(credit, standing_of(old, number), row) {
            scores.push(score)?;
        }
    }
    Ok(())
}

/// Adds what is new of the instances of a unit state since the call came after the other scores.
fn push_scores_on(
    alloc: Global,
    scores: &mut Listed<Score>,
    unit_state: &UnitState,
) -> Result<(), Memory>
    ensures { OnOk result (scores.new ≡ scores.old ++ scores_on (Some unit_state.now)) }
{
    let agreement = unit_state.agreement();
    let old = standings_by(
        alloc,
        &agreement,
        unit_state.decided_before().canonical,
        unit_state.before(),
    )?;
    let new = standings_by(
        alloc,
        &agreement,
        unit_state.decided_now().canonical,
        unit_state.present(),
    )?;
    push_scores(
        scores,
        unit_state.unit().credit,
        old.as_slice(),
        new.as_slice(),
    )
}

/// Adds what is new of the instances of the workunit at a place after the other scores.
#[tactic(auto, using(crate::proofs::OnUnitStates::scores_steps))]
fn add_scores<S: Draft>(
    alloc: Global,
    working_set: &mut S,
    scores: &mut Listed<Score>,
    unit: u32,
) -> Result<(), Unavailable>
    ensures reads { S.reads working_set.old working_set.new }
    ensures answer { Trusted S.Units working_set.old working_set.new (
        OnOk result (scores.new ≡ scores.old ++ scores_at (S.entry working_set.old) (S.world working_set.old) unit)) }
    ensures causes { Trusted S.Units working_set.old working_set.new (IfErr result (S.may_fail working_set.old)) }
{
    working_set.read(alloc, unit)?;
    let Some(unit_state) = working_set.unit_state(unit) else {
        return Ok(());
    };
    push_scores_on(alloc, scores, unit_state)?;
    Ok(())
}

/// What is new of the instances of these workunits since the call came: a score for each instance that has a host and
/// something new.
pub(crate) fn scores_of_units<S: Draft>(
    alloc: Global,
    working_set: &mut S,
    units: &[u32],
) -> Result<Listed<Score>, Unavailable>
    ensures reads { S.reads working_set.old working_set.new }
    ensures answer { Trusted S.Units working_set.old working_set.new (
        IfOk result (λ scores. scores ≡ scores_of_units (S.entry working_set.old) (S.world working_set.old) units.now)) }
    ensures causes { Trusted S.Units working_set.old working_set.new (IfErr result (S.may_fail working_set.old)) }
{
    let mut scores = Listed::new(alloc);
    for unit in units {
        add_scores(alloc, working_set, &mut scores, *unit)?;
    }
    Ok(scores)
}
