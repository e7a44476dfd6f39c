//! Columns of a row as values with types.

ghost use Rattle.std.specs.Prelude.{◌≡◌, pos, IfOk, IfErr, IsUtf8, if◌then◌else◌};
ghost use Rattle.std.specs.Bool.{Decides};
ghost use Rattle.sqlite.specs.Values.{or_null};
ghost use Rattle.sqlite_value.specs.Value.{owned};
ghost use Rattle.sqlite_value.specs.declared.value.Value.TheVariants.{Int as SqlInt, Text as SqlText, Blob as SqlBlob};
ghost use Rattle.sqlite_value.specs.Order.{column};
ghost use Rattle.table_meaning.specs.Rows.{whole as sql_whole, setting_value as sql_setting};
ghost use Rattle.table_meaning.specs.Formats.{words, flag as sql_flag, octets as sql_octets, optional, either, number as sql_number, integer as sql_integer, IsOf};
ghost use Rattle.table_rows.specs.Utf8.{IsUtf8Value};

use crate::opening::OpenFault;
use sched_book::Cause;
use sqlite::Row;
use sqlite::types::{FromSql, FromSqlError, ValueRef};
use std::alloc::Global;
use table_meaning::rows::SettingValue;
use texts::{Listed, Text, utf8_text};

/// The value in a column, or NULL past the end.
fn value(row: &Row, at: usize) -> ValueRef<'_>
    ensures { owned result ≡ column row.now at }
{
    match row.get_ref(at) {
        Ok(value) => value,
        Err(_) => ValueRef::Null,
    }
}

/// The column as a value of a type.
fn field<T: FromSql>(alloc: Global, row: &Row, at: usize) -> Result<T, OpenFault>
    ensures read { IfOk result (T.FromSql.reads_as (column row.now at)) }
    ensures bad { IfErr result (λ e. e ≡ OpenFault.BadRow → ¬ T.FromSql.is_readable (column row.now at)) }
{
    match T::column_result(alloc, value(row, at)) {
        Ok(field) => Ok(field),
        Err(FromSqlError::OutOfMemory) => Err(OpenFault::Unavailable(Cause::Memory)),
        Err(_) => Err(OpenFault::BadRow),
    }
}

/// A number below 2^32.
pub fn whole(alloc: Global, row: &Row, at: usize) -> Result<u32, OpenFault>
    ensures read { IfOk result (λ n. sql_whole n ≡ column row.now at) }
    ensures bad { IfErr result (λ e. e ≡ OpenFault.BadRow → ¬ IsOf sql_number (column row.now at)) }
{
    field(alloc, row, at)
}

/// Whether the column is this number.
pub(crate) fn is_whole(row: &Row, at: usize, number: u32) -> bool
    ensures { Decides result (column row.now at ≡ sql_whole number) }
{
    match value(row, at) {
        ValueRef::Int(found) => found == i64::from(number),
        _ => false,
    }
}

/// Any integer.
pub(crate) fn int(alloc: Global, row: &Row, at: usize) -> Result<i64, OpenFault>
    ensures read { IfOk result (λ n. SqlInt n ≡ column row.now at) }
    ensures bad { IfErr result (λ e. e ≡ OpenFault.BadRow → ¬ IsOf sql_integer (column row.now at)) }
{
    field(alloc, row, at)
}

/// A text in UTF-8 (RFC 3629).
pub(crate) fn text(alloc: Global, row: &Row, at: usize) -> Result<Text, OpenFault>
    ensures read { IfOk result (λ text. SqlText text ≡ column row.now at) }
    ensures utf8 { IfOk result (λ text. IsUtf8 text) }
    ensures bad { IfErr result (λ e. e ≡ OpenFault.BadRow → ¬ IsOf words (column row.now at)) }
{
    let ValueRef::Text(bytes) = value(row, at) else {
        return Err(OpenFault::BadRow);
    };
    match utf8_text(bytes) {
        Some(text) => Ok(Text::copied(alloc, text)?),
        None => Err(OpenFault::BadRow),
    }
}

pub(crate) fn octets(alloc: Global, row: &Row, at: usize) -> Result<Listed<u8>, OpenFault>
    ensures read { IfOk result (λ bytes. SqlBlob bytes ≡ column row.now at) }
    ensures bad { IfErr result (λ e. e ≡ OpenFault.BadRow → ¬ IsOf sql_octets (column row.now at)) }
{
    Ok(Listed::of(field(alloc, row, at)?))
}

pub(crate) fn flag(alloc: Global, row: &Row, at: usize) -> Result<bool, OpenFault>
    ensures read { IfOk result (λ flag. sql_whole (if flag then 1 else 0) ≡ column row.now at) }
    ensures bad { IfErr result (λ e. e ≡ OpenFault.BadRow → ¬ IsOf sql_flag (column row.now at)) }
{
    match whole(alloc, row, at)? {
        0 => Ok(false),
        1 => Ok(true),
        _ => Err(OpenFault::BadRow),
    }
}

pub(crate) fn optional_whole(alloc: Global, row: &Row, at: usize) -> Result<Option<u32>, OpenFault>
    ensures read { IfOk result (λ n. or_null sql_whole n ≡ column row.now at) }
    ensures bad { IfErr result (λ e. e ≡ OpenFault.BadRow → ¬ IsOf (optional sql_number) (column row.now at)) }
{
    field(alloc, row, at)
}

pub(crate) fn optional_int(alloc: Global, row: &Row, at: usize) -> Result<Option<i64>, OpenFault>
    ensures read { IfOk result (λ n. or_null SqlInt n ≡ column row.now at) }
    ensures bad { IfErr result (λ e. e ≡ OpenFault.BadRow → ¬ IsOf (optional sql_integer) (column row.now at)) }
{
    field(alloc, row, at)
}

pub(crate) fn optional_text(alloc: Global, row: &Row, at: usize) -> Result<Option<Text>, OpenFault>
    ensures read { IfOk result (λ text. or_null SqlText text ≡ column row.now at) }
    ensures utf8 { IfOk result (λ text. IsUtf8Value (or_null SqlText text)) }
    ensures bad { IfErr result (λ e. e ≡ OpenFault.BadRow → ¬ IsOf (optional words) (column row.now at)) }
{
    match value(row, at) {
        ValueRef::Null => Ok(None),
        _ => Ok(Some(text(alloc, row, at)?)),
    }
}

pub(crate) fn setting_value(alloc: Global, row: &Row, at: usize) -> Result<SettingValue, OpenFault>
    ensures read { IfOk result (λ value. sql_setting value ≡ column row.now at) }
    ensures utf8 { IfOk result (λ value. IsUtf8Value (sql_setting value)) }
    ensures bad { IfErr result (λ e. e ≡ OpenFault.BadRow → ¬ IsOf (either sql_number words) (column row.now at)) }
{
    match value(row, at) {
        ValueRef::Int(_) => Ok(SettingValue::Number(whole(alloc, row, at)?)),
        _ => Ok(SettingValue::Word(text(alloc, row, at)?)),
    }
}
