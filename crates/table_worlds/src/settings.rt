//! The rows of settings.

ghost use Rattle.std.specs.Prelude.{◌≡◌, IfOk};
ghost use Rattle.table_meaning.specs.declared.rows.StoredRow.TheVariants as stored;
ghost use Rattle.table_meaning.specs.declared.rows.SettingValue.TheVariants as value;
ghost use Rattle.table_worlds.specs.RowsOf.{setting_rows};

use sched_book::Settings;
use std::alloc::Global;
use table_meaning::rows::{SettingValue, StoredRow, StoredSetting};
use table_meaning::tables::NEWEST_SCHEMA;
use texts::{Listed, Memory, Text};

fn setting(alloc: Global, name: &str, value: SettingValue) -> Result<StoredRow, Memory>
    ensures { IfOk result (λ row. row ≡ stored.Setting (record { name = name.now; value = value })) }
{
    Ok(StoredRow::Setting(StoredSetting {
        name: Text::copied(alloc, name)?,
        value,
    }))
}

/// The row of a setting that is a number.
fn number(alloc: Global, name: &str, number: u32) -> Result<StoredRow, Memory>
    ensures { IfOk result (λ row. row ≡ stored.Setting (record { name = name.now; value = value.Number number })) }
{
    setting(alloc, name, SettingValue::Number(number))
}

/// The rows of the settings, and that of the schema.
pub fn setting_rows(alloc: Global, settings: &Settings) -> Result<Listed<StoredRow>, Memory>
    ensures { IfOk result (λ rows. rows ≡ setting_rows settings.now) }
{
    let key = SettingValue::Word(settings.operator_key.clone()?);
    Ok(Listed::of(vec![in alloc;
        number(alloc, "schema", NEWEST_SCHEMA)?,
        number(alloc, "daily_result_quota", settings.daily_result_quota)?,
        number(alloc, "max_hosts", settings.max_hosts)?,
        number(alloc, "max_wus_in_progress", settings.max_wus_in_progress)?,
        number(alloc, "max_wus_to_send", settings.max_wus_to_send)?,
        setting(alloc, "operator_key", key)?,
        number(alloc, "request_delay", settings.request_delay)?,
        number(
            alloc,
            "resend_lost_results",
            u32::from(settings.resend_lost_results)
        )?,
    ]?))
}
