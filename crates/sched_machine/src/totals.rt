//! The credit of a call's host and of its user, with what is new in the call.

ghost use Rattle.std.specs.Prelude.{◌≡◌, ◌+◌, ◌==◌, if◌then◌else◌, IfOk, IfErr, ◌<◌};
ghost use Rattle.sched_book.specs.Places.{host_credit, user_credit};
ghost use Rattle.sched_book.specs.Trusted.{Trusted};
ghost use Rattle.quorum_credit.specs.Scores.{credits_in};
ghost use Rattle.sched_machine.specs.Totals.{belongs, user_credits_in};

use call_working_set::Draft;
use quorum_credit::Score;
use sched_book::{Cause, Invariant, Unavailable};
use std::alloc::Global;

/// The credit of a host: what it had when the call came, and what these scores bring.
pub(crate) fn host_total<S: Draft>(
    working_set: &mut S,
    host: u32,
    scores: &[Score],
) -> Result<u64, Unavailable>
    ensures reads { S.reads working_set.old working_set.new }
    ensures answer { Trusted S.Units working_set.old working_set.new (
        IfOk result (λ credit. credit ≡ host_credit (S.entry working_set.old) host + credits_in scores.now host)) }
    ensures causes { Trusted S.Units working_set.old working_set.new (host_credit (S.entry working_set.old) host + credits_in scores.now host < 18446744073709551616 → IfErr result (S.may_fail working_set.old)) }
{
    let mut credit = working_set.credit_of_host(host)?;
    for score in scores {
        let more = if score.host == host { score.credit } else { 0 };
        let Some(sum) = credit.checked_add(u64::from(more)) else {
            return Err(Unavailable(Cause::Spoiled(Invariant::CreditOfHost)));
        };
        credit = sum;
    }
    Ok(credit)
}

/// What a score brings to the user of an account.
fn user_gain<S: Draft>(
    alloc: Global,
    working_set: &mut S,
    account: u32,
    score: &Score,
) -> Result<u32, Unavailable>
    ensures reads { S.reads working_set.old working_set.new }
    ensures answer { Trusted S.Units working_set.old working_set.new (IfOk result (λ credit.
        credit ≡ if belongs (S.world working_set.old).hosts account score.now.host then score.now.credit else 0)) }
    ensures causes { Trusted S.Units working_set.old working_set.new (IfErr result (S.may_fail working_set.old)) }
{
    if score.credit == 0 {
        return Ok(0);
    }
    match working_set.host(alloc, score.host)? {
        Some(host) if host.account == account => Ok(score.credit),
        _ => Ok(0),
    }
}

/// The credit of the user of an account: what the user had when the call came, and what these scores bring to the user's
/// hosts.
pub(crate) fn user_total<S: Draft>(
    alloc: Global,
    working_set: &mut S,
    account: u32,
    scores: &[Score],
) -> Result<u64, Unavailable>
    ensures reads { S.reads working_set.old working_set.new }
    ensures answer { Trusted S.Units working_set.old working_set.new (IfOk result (λ credit.
        credit ≡ user_credit (S.entry working_set.old) account + user_credits_in (S.world working_set.old).hosts account scores.now)) }
    ensures causes { Trusted S.Units working_set.old working_set.new (user_credit (S.entry working_set.old) account + user_credits_in (S.world working_set.old).hosts account scores.now < 18446744073709551616 → IfErr result (S.may_fail working_set.old)) }
{
    let mut credit = working_set.credit_of_user(account)?;
    for score in scores {
        let more = user_gain(alloc, working_set, account, score)?;
        let Some(sum) = credit.checked_add(u64::from(more)) else {
            return Err(Unavailable(Cause::Spoiled(Invariant::CreditOfUser)));
        };
        credit = sum;
    }
    Ok(credit)
}
