//! Whether rows that were read are those of a world.

ghost use Rattle.std.specs.Prelude.{◌≡◌, ◌≢◌, List, filter_map, IfOk, MatchOption};
ghost use Rattle.std.specs.Bool.{Decides};
ghost use Rattle.std.specs.List.{cons_option};
ghost use Rattle.sqlite_rules.specs.Lists.{Has};
ghost use Rattle.sched_book.specs.declared.instance.UnitBook.{UnitBook as Book};
ghost use Rattle.table_worlds.specs.Keys.{other_row};
ghost use Rattle.table_worlds.specs.RowsOf.{setting_rows as specified_settings, having, HaveSame, rows_of_table, count_beside, IsOtherTable, AreOtherRows};
ghost use Rattle.table_worlds.specs.Totals.{totals_of as specified_totals};

use crate::keys::{NumberedTable, WorldKey, push_numbered};
use crate::rows::row_at;
use crate::settings::setting_rows;
use crate::totals::Total;
use sched_book::{Settings, Unavailable, World};
use std::alloc::Global;
use table_meaning::rows::StoredRow;
use texts::{Listed, Memory};

/// The rows of the tables that hold a world, as they were read. The tables of workunits, their marks and instances are
/// left out.
#[derive(Drop)]
pub struct TableRows {
    pub settings: Listed<StoredRow>,
    pub accounts: Listed<StoredRow>,
    pub apps: Listed<StoredRow>,
    pub versions: Listed<StoredRow>,
    pub classes: Listed<StoredRow>,
    pub hosts: Listed<StoredRow>,
}

impl TableRows {
    /// The rows of a table. None for workunits and their marks.
    fn rows_of(&self, table: NumberedTable) -> &[StoredRow]
        ensures { result.now ≡ rows_of_table self.now table }
    {
        match table {
            NumberedTable::Account => self.accounts.as_slice(),
            NumberedTable::App => self.apps.as_slice(),
            NumberedTable::Version => self.versions.as_slice(),
            NumberedTable::Class => self.classes.as_slice(),
            NumberedTable::Host => self.hosts.as_slice(),
            NumberedTable::Unit | NumberedTable::Mark => &[],
        }
    }
}

/// The tables whose keys are numbers, except those of workunits and their marks.
const OTHER_TABLES: [NumberedTable; 5] = [
    NumberedTable::Account,
    NumberedTable::App,
    NumberedTable::Version,
    NumberedTable::Class,
    NumberedTable::Host,
];

#[tactic(auto, using(crate::proofs::SameRows::same_rows))]
fn same_row(left: &StoredRow, right: &StoredRow) -> bool
    ensures { Decides result (left.now ≡ right.now) }
{
    match (left, right) {
        (StoredRow::Setting(left), StoredRow::Setting(right)) => left == right,
        (StoredRow::Account(left), StoredRow::Account(right)) => left == right,
        (StoredRow::App(left), StoredRow::App(right)) => left == right,
        (StoredRow::Version(left), StoredRow::Version(right)) => left == right,
        (StoredRow::Unit(left), StoredRow::Unit(right)) => left == right,
        (StoredRow::Host(left), StoredRow::Host(right)) => left == right,
        (StoredRow::Instance(left), StoredRow::Instance(right)) => left == right,
        (StoredRow::Kept(left), StoredRow::Kept(right)) => left == right,
        (StoredRow::Batch(left), StoredRow::Batch(right)) => left == right,
        (StoredRow::VersionClass(left), StoredRow::VersionClass(right)) => left == right,
        (StoredRow::UnitMark(left), StoredRow::UnitMark(right)) => left == right,
        _ => false,
    }
}

/// Whether the row is among these.
fn is_among(rows: &[StoredRow], row: &StoredRow) -> bool
    ensures { Decides result (Has rows.now row.now) }
{
    for other in rows {
        if same_row(row, other) {
            return true;
        }
    }
    false
}

/// Whether each of these rows is among the others.
fn are_among(rows: &[StoredRow], others: &[StoredRow]) -> bool
    ensures { Decides result ((r : StoredRow) → Has rows.now r → Has others.now r) }
{
    for row in rows {
        if !is_among(others, row) {
            return false;
        }
    }
    true
}

/// Whether these are the rows of the settings, in any order.
fn are_setting_rows(alloc: Global, settings: &Settings, rows: &[StoredRow]) -> Result<bool, Memory>
    ensures { IfOk result (λ same. Decides same (HaveSame rows.now (specified_settings settings.now))) }
{
    let own = setting_rows(alloc, settings)?;
    Ok(are_among(rows, own.as_slice()) && are_among(own.as_slice(), rows))
}

/// The rows after the world's own row, if they begin with it. If the world has none, all of the rows.
fn rest_after<'a>(own: &Option<StoredRow>, rows: &'a [StoredRow]) -> Option<&'a [StoredRow]>
    ensures { MatchOption result ((more : _) → rows.now ≢ cons_option own.now more) (λ more. rows.now ≡ cons_option own.now more.now) }
{
    let Some(own) = own else {
        return Some(rows);
    };
    let [row, rest @ ..] = rows else {
        return None;
    };
    same_row(own, row).then_some(rest)
}

/// Whether these are the rows of the world at some keys, in their order.
fn are_rows_at(
    alloc: Global,
    world: &World,
    totals: &[Total],
    keys: &[WorldKey],
    rows: &[StoredRow],
) -> Result<bool, Unavailable>
    ensures { (books : List Book) → totals.now ≡ specified_totals (having world.now books) → IfOk result (λ same. Decides same (rows.now ≡ filter_map (other_row (having world.now books)) keys.now)) }
{
    let mut left = rows;
    for key in keys {
        let rest = rest_after(&row_at(alloc, world, totals, *key)?, left);
        match rest {
            None => return Ok(false),
            Some(rest) => left = rest,
        }
    }
    Ok(left.is_empty())
}

/// How many rows of a table a world has, for any workunits. None of the tables of workunits and their marks.
fn count_of(world: &World, table: NumberedTable) -> usize
    ensures { (books : List Book) → result ≡ count_beside (having world.now books) table }
{
    match table {
        NumberedTable::Account => world.accounts.len(),
        NumberedTable::App => world.apps.len(),
        NumberedTable::Version | NumberedTable::Class => world.versions.len(),
        NumberedTable::Host => world.hosts.len(),
        NumberedTable::Unit | NumberedTable::Mark => 0,
    }
}

/// Whether the rows of a table are those of the world.
fn is_table(
    alloc: Global,
    world: &World,
    totals: &[Total],
    table: NumberedTable,
    rows: &TableRows,
) -> Result<bool, Unavailable>
    ensures { (books : List Book) → totals.now ≡ specified_totals (having world.now books) → IfOk result (λ same. Decides same (IsOtherTable (having world.now books) rows.now table)) }
{
    let mut keys = Listed::new(alloc);
    push_numbered(&mut keys, table, count_of(world, table))?;
    are_rows_at(alloc, world, totals, keys.as_slice(), rows.rows_of(table))
}

/// Whether the rows of each of these tables are those of the world.
fn are_tables(
    alloc: Global,
    world: &World,
    totals: &[Total],
    tables: &[NumberedTable],
    rows: &TableRows,
) -> Result<bool, Unavailable>
    ensures { (books : List Book) → totals.now ≡ specified_totals (having world.now books)
        → IfOk result (λ same. Decides same ((t : NumberedTable) → Has tables.now t → IsOtherTable (having world.now books) rows.now t)) }
{
    for table in tables {
        if !is_table(alloc, world, totals, *table, rows)? {
            return Ok(false);
        }
    }
    Ok(true)
}

/// Whether these are the rows of a world whose hosts have these totals, for any workunits. `Unavailable` if out of
/// memory, or if a table can't hold a number of the world.
pub fn are_other_rows(
    alloc: Global,
    world: &World,
    totals: &[Total],
    rows: &TableRows,
) -> Result<bool, Unavailable>
    ensures { (books : List Book) → totals.now ≡ specified_totals (having world.now books) → IfOk result (λ same. Decides same (AreOtherRows (having world.now books) rows.now)) }
{
    let settings = are_setting_rows(alloc, &world.settings, rows.settings.as_slice())?;
    let tables = are_tables(alloc, world, totals, &OTHER_TABLES, rows)?;
    Ok(settings && tables)
}
