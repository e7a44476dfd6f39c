//! Rows that have names: which names exist already, and which applications a row needs.

ghost use Rattle.std.specs.Prelude.{◌≡◌, Bool, List, ℕ, map, IfOk, refl};
ghost use Rattle.std.specs.List.{list_any};
ghost use Rattle.sched_book.specs.Classes.{imported};
ghost use Rattle.sched_book.specs.Imports.{same_account, same_app, same_version, same_unit};
ghost use Rattle.sched_book.specs.Keys.{same_key};
ghost use Rattle.sched_book.specs.Trusted.{Trusted};
ghost use Rattle.sched_book.specs.declared.instance.UnitBook.{UnitBook};

use sched_book::{Account, App, Desk, Keyed, Unavailable, Version, Workunit};
use std::alloc::Global;

/// A row whose name may exist only once.
pub(crate) trait NamedRow: Keyed {
    ghost use Rattle.sched_book.specs.declared.world.World.{World};

    /// Two rows have the same name.
    ghost same: { Self → Self → Bool };

    /// The rows of its kind that exist.
    ghost shelf: { World → List Self };

    /// Whether its name exists.
    fn is_known<D: Desk>(&self, alloc: Global, desk: &mut D) -> Result<bool, Unavailable>
        ensures reads { D.reads desk.old desk.new }
        ensures answer { Trusted D.Units desk.old desk.new (IfOk result (λ known. known ≡ list_any (same self.now) (shelf (D.world desk.old)))) };

    // Names are the same exactly if keys are.
    ghost same_by_key: { (x y : Self) → same x y ≡ same_key (Self.key_of x) (Self.key_of y) };
}

impl NamedRow for Account {
    ghost same = { same_account };

    ghost shelf = { λ w. w.accounts };

    #[tactic(auto, using(crate::proofs::LookUps::account_known))]
    fn is_known<D: Desk>(&self, alloc: Global, desk: &mut D) -> Result<bool, Unavailable> {
        Ok(
            desk.account_by_key(alloc, self.authenticator.as_str())?
                .is_some(),
        )
    }

    ghost same_by_key = { λ x y. refl };
}

impl NamedRow for App {
    ghost same = { same_app };

    ghost shelf = { λ w. w.apps };

    #[tactic(auto, using(crate::proofs::LookUps::app_known))]
    fn is_known<D: Desk>(&self, alloc: Global, desk: &mut D) -> Result<bool, Unavailable> {
        Ok(desk.app_by_name(alloc, self.name.as_str())?.is_some())
    }

    ghost same_by_key = { λ x y. refl };
}

impl NamedRow for Version {
    ghost use Rattle.office_files.specs.KeyLaws.{same_version_by_key};

    ghost same = { same_version };

    ghost shelf = { λ w. w.versions };

    #[tactic(auto, using(crate::proofs::LookUps::version_known))]
    fn is_known<D: Desk>(&self, alloc: Global, desk: &mut D) -> Result<bool, Unavailable> {
        Ok(
            desk.version_by_key(
                alloc,
                self.app.as_str(),
                self.platform.as_str(),
                self.version_num,
            )?
            .is_some(),
        )
    }

    ghost same_by_key = { same_version_by_key };
}

impl NamedRow for Workunit {
    ghost same = { same_unit };

    ghost shelf = { λ w. map (λ (b : UnitBook). imported b.unit) w.units };

    #[tactic(auto, using(crate::proofs::LookUps::unit_known))]
    fn is_known<D: Desk>(&self, _alloc: Global, desk: &mut D) -> Result<bool, Unavailable> {
        Ok(desk.unit_by_name(self.name.as_str())?.is_some())
    }

    ghost same_by_key = { λ x y. refl };
}

/// A row that needs an application.
pub(crate) trait AppRow {
    /// The application's name.
    ghost app_of: { Self → List ℕ };

    fn app(&self) -> &str
        ensures { result.now ≡ app_of self.now };
}

impl AppRow for Version {
    ghost app_of = { λ v. v.app };

    fn app(&self) -> &str {
        self.app.as_str()
    }
}

impl AppRow for Workunit {
    ghost app_of = { λ u. u.app };

    fn app(&self) -> &str {
        self.app.as_str()
    }
}
