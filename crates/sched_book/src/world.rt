//! The world: all rows of a project.

use crate::instance::UnitBook;
use crate::rows::{Account, App, HostRow, Version};
use crate::settings::Settings;
use texts::{Listed, Same};

/// The state of the job machine.
///
/// The place of an account, an application, a version or a workunit, and the number of a host, is its index plus one.
/// The world has no sequence number, kept reply, total or status: what follows from the rows is counted from them.
#[derive(Clone, Drop)]
pub struct World {
    pub settings: Settings,
    pub accounts: Listed<Account>,
    pub apps: Listed<App>,
    pub versions: Listed<Version>,
    pub units: Listed<UnitBook>,
    pub hosts: Listed<HostRow>,
}

impl Same for World {
    ghost use Rattle.std.proofs.Common.{rules};

    ghost exact = { λ world copy is_copy. Prim.search rules };
}
