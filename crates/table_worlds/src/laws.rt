//! Laws of the definitions. Each function does nothing; its contract is the law.

ghost use Rattle.table_worlds.specs.OneWorld.{TablesHoldOneWorld};
ghost use Rattle.table_worlds.specs.Readable.{SoundIsReadable, StaysReadable, RowsStayReadable};
ghost use Rattle.table_worlds.specs.StoredWorld.{HeldIsReadBack};

/// A world that tables hold is the one that is read back from their rows.
pub fn world_read_back()
    ensures { HeldIsReadBack }
{}

/// The rows of a sound world determine it.
pub fn sound_is_readable()
    ensures { SoundIsReadable }
{}

/// This stays true after edits that give a host words as platforms.
pub fn stays_readable()
    ensures { StaysReadable }
{}

/// It stays true with new rows whose applications exist.
pub fn rows_stay_readable()
    ensures { RowsStayReadable }
{}

/// Tables hold at most one sound world.
pub fn one_world()
    ensures { TablesHoldOneWorld }
{}
