//! Laws of the definitions. Each function does nothing; its contract is the law.

ghost use Rattle.job_choice.specs.Alike.{GrantsCarryOver};
ghost use Rattle.job_choice.specs.Chosen.{OneGrant};

/// There is at most one grant.
pub fn there_is_one_grant()
    ensures { OneGrant }
{}

/// A grant of one world is a grant of every other world in which the same places are eligible and take as long, the host
/// got as many jobs on the day, and the limits are the same.
pub fn a_grant_carries_over()
    ensures { GrantsCarryOver }
{}
