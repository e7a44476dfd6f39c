//! Whether the key of each row occurs once.

ghost use Rattle.std.specs.Prelude.{◌≢◌, ◌↔◌, IsTrue, IfOk, AllPairs};
ghost use Rattle.sched_book.specs.Imports.{same_version};
ghost use Rattle.sched_book.specs.Sound.{HaveOtherKeys};
ghost use Rattle.world_soundness.specs.KeyLaws.{names_apart, versions_apart, hosts_apart};

use sched_book::{Account, App, HostRow, Keyed, UnitBook, Version};
use std::alloc::Global;
use texts::{Memory, SeenSet};

/// A row with a key that no other row of its kind may have.
pub(crate) trait Unique: Keyed {
    /// Two rows may be in one world.
    ghost apart: { Self → Self → Type 0 };

    // Two rows may be in one world if and only if their keys differ.
    ghost apart_by_key: { (x y : Self) → apart x y ↔ (Self.key_of x ≢ Self.key_of y) };
}

impl Unique for Account {
    ghost apart = { λ a b. a.authenticator ≢ b.authenticator };

    ghost apart_by_key = { λ a b. names_apart a.authenticator b.authenticator };
}

impl Unique for App {
    ghost apart = { λ a b. a.name ≢ b.name };

    ghost apart_by_key = { λ a b. names_apart a.name b.name };
}

impl Unique for Version {
    ghost apart = { λ a b. IsTrue (same_version a b) → ⊥ };

    ghost apart_by_key = { versions_apart };
}

impl Unique for UnitBook {
    ghost apart = { λ a b. a.unit.name ≢ b.unit.name };

    ghost apart_by_key = { λ a b. names_apart a.unit.name b.unit.name };
}

impl Unique for HostRow {
    ghost apart = { HaveOtherKeys };

    ghost apart_by_key = { hosts_apart };
}

/// Whether no two of these rows have the same key.
pub(crate) fn stand_once<R: Unique>(alloc: Global, rows: &[R]) -> Result<bool, Memory>
    ensures { IfOk result (λ once. IsTrue once ↔ AllPairs R.apart rows.now) }
{
    let mut seen = SeenSet::new(alloc);
    for row in rows {
        if !seen.is_first(row.key())? {
            return Ok(false);
        }
    }
    Ok(true)
}
