//! The quotas of hosts after settlement.

ghost use Rattle.std.specs.Prelude.{◌≡◌, ℕ, ◌==◌, if◌then◌else◌, None, Some, [], ◌∷◌, ◌++◌, IfOk, IfErr, OnOk};
ghost use Rattle.sched_book.specs.Trusted.{Trusted};
ghost use Rattle.quorum_credit.specs.Settling.{AreQuotasBy};
ghost use Rattle.quorum_credit.specs.Tallies.{new_quotas, tally_with, tally_after, tally_in, AreSums};

use crate::quota::next_quota;
use crate::scores::Score;
use call_working_set::Draft;
use sched_book::{Edit, Edits, HostRow, Unavailable};
use std::alloc::Global;
use std::collections::BTreeMap;
use texts::{Listed, Memory};

/// What scores say of one host.
#[derive(Clone, Copy)]
struct Tally {
    host: u32,
    /// How much counts against the host, at most the largest number of 32 bits.
    charges: u32,
    /// How much counts for it, likewise.
    merits: u32,
}

/// Adds the host of a tally, with its new quota, after the others, if the host exists.
fn add_quota<S: Draft>(
    alloc: Global,
    working_set: &mut S,
    limit: u32,
    quotas: &mut Edits,
    tally: &Tally,
) -> Result<(), Unavailable>
    ensures reads { S.reads working_set.old working_set.new }
    ensures answer { Trusted S.Units working_set.old working_set.new (
        OnOk result (quotas.new ≡ quotas.old ++ new_quotas (S.world working_set.old) limit (tally.now ∷ []))) }
    ensures causes { Trusted S.Units working_set.old working_set.new (IfErr result (S.may_fail working_set.old)) }
{
    let Some(host) = working_set.host(alloc, tally.host)? else {
        return Ok(());
    };
    quotas.push(Edit::Host {
        number: tally.host,
        row: HostRow {
            quota: next_quota(host.quota, tally.charges, tally.merits, limit),
            ..host
        },
    })?;
    Ok(())
}

/// The hosts of these tallies with their new quotas, in their order.
fn quotas_in_turn<S: Draft>(
    alloc: Global,
    working_set: &mut S,
    limit: u32,
    tallies: &[Tally],
) -> Result<Edits, Unavailable>
    ensures reads { S.reads working_set.old working_set.new }
    ensures answer { Trusted S.Units working_set.old working_set.new (
        IfOk result (λ quotas. quotas ≡ new_quotas (S.world working_set.old) limit tallies.now)) }
    ensures causes { Trusted S.Units working_set.old working_set.new (IfErr result (S.may_fail working_set.old)) }
{
    let mut quotas = Listed::new(alloc);
    for tally in tallies {
        add_quota(alloc, working_set, limit, &mut quotas, tally)?;
    }
    Ok(quotas)
}

/// The tally of a host so far, with one more score. A sum ends at the largest number of 32 bits: no quota is larger, so
/// more leads to the same quota.
fn tally_with(tally: Option<Tally>, score: &Score) -> Tally
    ensures { result ≡ tally_with tally score.now }
{
    let before = tally.unwrap_or(Tally {
        host: score.host,
        charges: 0,
        merits: 0,
    });
    Tally {
        host: before.host,
        charges: before.charges.saturating_add(score.charges),
        merits: before.merits.saturating_add(score.merits),
    }
}

/// Adds one score to the tally of its host.
fn add_score(tallies: &mut BTreeMap<u32, Tally>, score: &Score) -> Result<(), Memory>
    ensures { OnOk result ((host : ℕ) → tally_in tallies.new host ≡
        if score.now.host == host then Some (tally_with (tally_in tallies.old host) score.now) else tally_in tallies.old host) }
{
    let tally = tally_with(tallies.get(&score.host).copied(), score);
    tallies.insert(score.host, tally)?;
    Ok(())
}

/// What these scores say of each host, by its number.
fn tallies_of(alloc: Global, scores: &[Score]) -> Result<BTreeMap<u32, Tally>, Memory>
    ensures { IfOk result (λ tallies. (host : ℕ) → tally_in tallies host ≡ tally_after host None scores.now) }
{
    let mut tallies = BTreeMap::new(alloc);
    for score in scores {
        add_score(&mut tallies, score)?;
    }
    Ok(tallies)
}

/// What these scores say, in one tally for each host that they name.
fn sums_of(alloc: Global, scores: &[Score]) -> Result<Vec<Tally>, Memory>
    ensures { IfOk result (λ sums. AreSums scores.now sums.items) }
{
    let tallies = tallies_of(alloc, scores)?;
    Ok(tallies.values().copied().collect(alloc)?)
}

/// The hosts that these scores name, each with the quota that results from them.
pub(crate) fn new_quotas<S: Draft>(
    alloc: Global,
    working_set: &mut S,
    scores: &[Score],
) -> Result<Edits, Unavailable>
    ensures reads { S.reads working_set.old working_set.new }
    ensures answer { Trusted S.Units working_set.old working_set.new (
        IfOk result (λ quotas. AreQuotasBy scores.now (S.world working_set.old) quotas)) }
    ensures causes { Trusted S.Units working_set.old working_set.new (IfErr result (S.may_fail working_set.old)) }
{
    let sums = sums_of(alloc, scores)?;
    let limit = working_set.settings().daily_result_quota;
    quotas_in_turn(alloc, working_set, limit, sums.as_slice())
}
