//! What distinguishes the rows of one kind.

ghost use Rattle.std.specs.Prelude.{◌≡◌};
ghost use Rattle.sched_book.specs.Keys.{Key, account_key, app_key, version_key, unit_key, host_key};

use crate::instance::UnitBook;
use crate::rows::{Account, App, HostRow, Version, Workunit};

/// A row with a key.
pub trait Keyed {
    /// What distinguishes it.
    ghost key_of: { Self → Key };

    /// A number and two texts; 0 and empty if the row does not need them.
    fn key(&self) -> (u32, &str, &str)
        ensures { (result.0, result.1.now, result.2.now) ≡ key_of self.now };
}

impl Keyed for Account {
    ghost key_of = { account_key };

    fn key(&self) -> (u32, &str, &str) {
        (0, "", self.authenticator.as_str())
    }
}

impl Keyed for App {
    ghost key_of = { app_key };

    fn key(&self) -> (u32, &str, &str) {
        (0, "", self.name.as_str())
    }
}

impl Keyed for Version {
    ghost key_of = { version_key };

    fn key(&self) -> (u32, &str, &str) {
        (self.version_num, self.platform.as_str(), self.app.as_str())
    }
}

impl Keyed for Workunit {
    ghost key_of = { unit_key };

    fn key(&self) -> (u32, &str, &str) {
        (0, "", self.name.as_str())
    }
}

impl Keyed for UnitBook {
    ghost key_of = { λ b. unit_key b.unit };

    fn key(&self) -> (u32, &str, &str) {
        self.unit.key()
    }
}

impl Keyed for HostRow {
    ghost key_of = { host_key };

    fn key(&self) -> (u32, &str, &str) {
        (self.account, "", self.cpid.as_str())
    }
}
