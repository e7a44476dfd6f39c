//! Reads the tables row by row.

ghost use Rattle.std.specs.Prelude.{◌≡◌, IfOk, IfErr, OnOk};
ghost use Rattle.sqlite.specs.Held.{state};
ghost use Rattle.table_meaning.specs.Reads.{Reads};
ghost use Rattle.table_rows.specs.Visits.{VisitsTables};
ghost use Rattle.table_reading.specs.Reading.{AllRows, no_rows, with_row, AreAllRead, AreTyped, AreUtf8, reading_of, HasBadTable, WereKnown};

use crate::counts::UnitCounts;
use crate::kept::{is_call, is_import};
use sqlite::{Alter, Connection};
use std::alloc::Global;
use table_meaning::rows::StoredRow;
use table_meaning::tables::TableName;
use table_rows::{OpenFault, RowVisitor, visit_rows};
use table_worlds::TableRows;
use texts::Listed;

/// The tables, in the order in which they are read.
const ALL_TABLES: [TableName; 11] = [
    TableName::Setting,
    TableName::Account,
    TableName::App,
    TableName::Version,
    TableName::VersionClass,
    TableName::Unit,
    TableName::UnitMark,
    TableName::Host,
    TableName::Instance,
    TableName::Kept,
    TableName::Batch,
];

/// What was read from the tables. The rows of workunits, their marks and instances are counted and not held in memory.
/// Kept calls and imports are tested row by row.
#[derive(Drop)]
pub struct Reading {
    /// The rows of the other tables that hold a world.
    pub rows: TableRows,
    /// How many instances each workunit has, and whether each has a mark.
    pub units: UnitCounts,
    /// Whether each row of a kept call may be one, of any host.
    pub are_calls: bool,
    /// The greatest number of a host among the kept calls.
    pub last_host: u32,
    /// Whether each row of a kept import may be one.
    pub are_imports: bool,
}

impl Reading {
    /// A reading with no row read yet.
    fn new(alloc: Global) -> Reading
        ensures { result ≡ reading_of no_rows }
    {
        Reading {
            rows: TableRows {
                settings: Listed::new(alloc),
                accounts: Listed::new(alloc),
                apps: Listed::new(alloc),
                versions: Listed::new(alloc),
                classes: Listed::new(alloc),
                hosts: Listed::new(alloc),
            },
            units: UnitCounts::new(alloc),
            are_calls: true,
            last_host: 0,
            are_imports: true,
        }
    }
}

impl RowVisitor for Reading {
    ghost use Rattle.std.specs.Prelude.{◌≡◌};
    ghost use Rattle.table_reading.specs.Reading.{with_row};

    ghost takes = { λ old row new. new ≡ with_row old row };

    ghost refuses = { λ _ _. ⊥ };

    fn visit(&mut self, row: StoredRow) -> Result<(), OpenFault> {
        match row {
            StoredRow::Setting(_) => self.rows.settings.push(row)?,
            StoredRow::Account(_) => self.rows.accounts.push(row)?,
            StoredRow::App(_) => self.rows.apps.push(row)?,
            StoredRow::Version(_) => self.rows.versions.push(row)?,
            StoredRow::VersionClass(_) => self.rows.classes.push(row)?,
            StoredRow::Unit(unit) => self.units.note_unit(&unit)?,
            StoredRow::UnitMark(mark) => self.units.note_mark(&mark),
            StoredRow::Host(_) => self.rows.hosts.push(row)?,
            StoredRow::Instance(instance) => self.units.note_instance(&instance),
            StoredRow::Kept(call) => {
                self.are_calls = self.are_calls && is_call(&call);
                self.last_host = self.last_host.max(call.host_id);
            }
            StoredRow::Batch(batch) => self.are_imports = self.are_imports && is_import(&batch),
        }
        Ok(())
    }
}

/// Reads the tables in turn. What the connection shows is unchanged.
fn read_tables<S: Alter>(
    alloc: Global,
    conn: &mut Connection<S>,
    tables: &[TableName],
    reading: &mut Reading,
) -> Result<(), OpenFault>
    ensures reads { Reads (state S.Store conn.old) (state S.Store conn.new) }
    ensures rows { WereKnown (state S.Store conn.old) (state S.Store conn.new)
        → OnOk result (VisitsTables (λ old row new. new ≡ with_row old row) (state S.Store conn.old).now.trees reading.old tables.now reading.new) }
    ensures bad { WereKnown (state S.Store conn.old) (state S.Store conn.new) → IfErr result (λ e. e ≡ OpenFault.BadRow → HasBadTable (state S.Store conn.old).now.trees) }
{
    for table in tables {
        visit_rows(alloc, conn, *table, reading)?;
    }
    Ok(())
}

/// Reads all tables. What the connection shows is unchanged.
pub(crate) fn read_all<S: Alter>(
    alloc: Global,
    conn: &mut Connection<S>,
) -> Result<Reading, OpenFault>
    ensures reads { Reads (state S.Store conn.old) (state S.Store conn.new) }
    ensures rows { WereKnown (state S.Store conn.old) (state S.Store conn.new)
        → IfOk result (λ reading. (all : AllRows) × AreAllRead (state S.Store conn.old).now.trees all × AreTyped all × (reading ≡ reading_of all)) }
    ensures utf8 { WereKnown (state S.Store conn.old) (state S.Store conn.new) → OnOk result (AreUtf8 (state S.Store conn.old).now.trees) }
    ensures bad { WereKnown (state S.Store conn.old) (state S.Store conn.new) → IfErr result (λ e. e ≡ OpenFault.BadRow → HasBadTable (state S.Store conn.old).now.trees) }
{
    let mut reading = Reading::new(alloc);
    read_tables(alloc, conn, &ALL_TABLES, &mut reading)?;
    Ok(reading)
}
