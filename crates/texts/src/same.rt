//! Types whose clones are equal to what was cloned.

ghost use Rattle.std.specs.Prelude.{◌≡◌};

/// A type whose clones are equal to what was cloned.
///
/// `Clone` alone lets each type decide what a copy is. A record that is kept and compared later needs more.
pub trait Same: Clone {
    /// A clone is equal to the value.
    ghost exact: { (a b : Self) → Self.is_clone a b → a ≡ b };
}

impl Same for u32 {
    ghost use Rattle.std.proofs.Common.{rules};

    ghost exact = { λ number copy is_copy. Prim.search rules };
}
