//! The settings that rows give.

ghost use Rattle.std.specs.Prelude.{◌≡◌, ◌↔◌, ℕ, Bool, List, if◌then◌else◌, Some, Ok, IsTrue};
ghost use Rattle.std.specs.Option.{option_copied};
ghost use Rattle.sqlite_rules.specs.Lists.{Has};
ghost use Rattle.sched_book.specs.declared.settings.Settings.{Settings};
ghost use Rattle.table_meaning.specs.declared.rows.SettingValue.{SettingValue};
ghost use Rattle.table_meaning.specs.declared.rows.SettingValue.TheVariants as value;
ghost use Rattle.table_decoding.specs.Decoding.{Gives, GivesSetting, GiveSettings, schema_row, told_of};

use crate::fault::RowFault;
use sched_book::Settings;
use table_meaning::rows::{SettingValue, StoredRow};
use table_meaning::tables::NEWEST_SCHEMA;
use texts::Text;

/// Whether the row names the schema of the stored tables.
fn is_schema(row: &StoredRow) -> bool
    ensures { IsTrue result ↔ (row.now ≡ schema_row) }
{
    match row {
        StoredRow::Setting(setting) => {
            setting.name.is("schema")
                && matches!(setting.value, SettingValue::Number(NEWEST_SCHEMA))
        }
        _ => false,
    }
}

/// Whether a row names the schema of the stored tables.
pub(crate) fn names_schema(rows: &[StoredRow]) -> bool
    ensures { IsTrue result ↔ Has rows.now schema_row }
{
    for row in rows {
        if is_schema(row) {
            return true;
        }
    }
    false
}

/// The value that the row gives for the setting of this name.
fn told_of<'a>(row: &'a StoredRow, name: &str) -> Option<&'a SettingValue>
    ensures { option_copied result ≡ told_of name.now row.now }
{
    match row {
        StoredRow::Setting(setting) if setting.name.is(name) => Some(&setting.value),
        _ => None,
    }
}

/// The value of the first row for the setting of this name.
fn value_of<'a>(rows: &'a [StoredRow], name: &str) -> Option<&'a SettingValue>
    ensures { (v : SettingValue) → GivesSetting rows.now name.now v → option_copied result ≡ Some v }
{
    for row in rows {
        if let Some(value) = told_of(row, name) {
            return Some(value);
        }
    }
    None
}

/// The setting of this name, which is a number.
fn number(rows: &[StoredRow], name: &str) -> Result<u32, RowFault>
    ensures { (n : ℕ) → GivesSetting rows.now name.now (value.Number n) → result ≡ Ok n }
{
    match value_of(rows, name) {
        Some(SettingValue::Number(number)) => Ok(*number),
        _ => Err(RowFault::BadRow),
    }
}

/// The setting of this name, which is a word.
fn word(rows: &[StoredRow], name: &str) -> Result<Text, RowFault>
    ensures { (text : List ℕ) → GivesSetting rows.now name.now (value.Word text) → Gives result text }
{
    match value_of(rows, name) {
        Some(SettingValue::Word(text)) => Ok(text.clone()?),
        _ => Err(RowFault::BadRow),
    }
}

/// The setting of this name, which is 1 for true and 0 for false.
fn flag(rows: &[StoredRow], name: &str) -> Result<bool, RowFault>
    ensures { (b : Bool) → GivesSetting rows.now name.now (value.Number (if b then 1 else 0)) → result ≡ Ok b }
{
    match number(rows, name)? {
        0 => Ok(false),
        1 => Ok(true),
        _ => Err(RowFault::BadRow),
    }
}

/// The settings that these rows give.
pub(crate) fn settings(rows: &[StoredRow]) -> Result<Settings, RowFault>
    ensures { (s : Settings) → GiveSettings rows.now s → Gives result s }
{
    Ok(Settings {
        daily_result_quota: number(rows, "daily_result_quota")?,
        max_hosts: number(rows, "max_hosts")?,
        max_wus_in_progress: number(rows, "max_wus_in_progress")?,
        max_wus_to_send: number(rows, "max_wus_to_send")?,
        request_delay: number(rows, "request_delay")?,
        resend_lost_results: flag(rows, "resend_lost_results")?,
        operator_key: word(rows, "operator_key")?,
    })
}
