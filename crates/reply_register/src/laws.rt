//! Laws of the register. Each function does nothing; its contract is the law.
ghost use Rattle.reply_register.specs.Calls.{GreatestIsGreatest};
ghost use Rattle.reply_register.specs.Keeping.{KeepsTheLatest};
ghost use Rattle.reply_register.specs.Keys.{KeepsAtOneKey, KeepsOtherKeys};

/// After calls of one key are kept, that key has them, and each other key has what it had.
pub fn keeps_at_one_key()
    ensures { KeepsAtOneKey }
{}

/// Keeping calls of one key leaves what is kept of every other.
pub fn keeps_other_keys()
    ensures { KeepsOtherKeys }
{}

/// If kept calls have falling numbers and a new call is above all of them, the new one and the latest three are kept.
pub fn keeps_the_latest()
    ensures { KeepsTheLatest }
{}

/// The greatest number of some calls is that of one of them, and none has a greater one.
pub fn greatest_is_greatest()
    ensures { GreatestIsGreatest }
{}
