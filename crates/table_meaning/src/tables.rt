//! The names of the stored tables, the number of their schema, and the fills of an upgrade.

ghost use Rattle.std.specs.Prelude.{◌≡◌};
ghost use Rattle.table_meaning.specs.Places.{page_size};

/// The number of the newest schema, the one that the program uses.
pub const NEWEST_SCHEMA: u32 = 3;

/// The tables of the stored format.
#[derive(Clone, Copy)]
pub enum TableName {
    Setting,
    Account,
    App,
    Version,
    Unit,
    Host,
    Instance,
    Kept,
    Batch,
    VersionClass,
    UnitMark,
}

/// A fill of a table that a schema adds. For each row of another table, in the order of their numbers, an upgrade
/// inserts one row.
#[derive(Clone, Copy)]
pub enum Fill {
    /// The call that the first schema keeps of a host, into the host's first slot.
    Calls,
    /// The class of a version, which is its platform.
    Classes,
    /// The mark of a workunit, which is not marked.
    Marks,
}

/// A page of the instances that are waiting to be sent.
#[derive(Clone, Copy)]
pub enum QueuePage {
    /// The first page. It is short, since most calls take only a few jobs.
    First,
    Further,
}

impl QueuePage {
    /// How many places it has at most.
    pub fn size(self) -> u32
        ensures { result ≡ page_size self }
    {
        match self {
            QueuePage::First => 8,
            QueuePage::Further => 64,
        }
    }
}
