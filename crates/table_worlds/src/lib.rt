//! Worlds as rows of the stored tables, and rows as worlds. It knows no SQL.
#![tactic(auto)]

pub mod keys;
pub mod laws;
pub mod matching;
mod rows;
mod settings;
pub mod totals;
pub mod unit_rows;

pub use keys::WorldKey;
pub use matching::{TableRows, are_other_rows};
pub use rows::{
    account_row, app_row, class_row, host_row, instance_row, mark_row, unit_row, version_row,
};
pub use settings::setting_rows;
pub use totals::{Total, count_unit, no_totals};
pub use unit_rows::{UnitRows, are_unit_rows};
