//! Single values as parameters of a statement.

ghost use Rattle.std.specs.Prelude.{◌≡◌, IsUtf8};
ghost use Rattle.sqlite.specs.Values.{or_null};
ghost use Rattle.sqlite_value.specs.Value.{owned};
ghost use Rattle.sqlite_value.specs.declared.value.Value.TheVariants.{Int as SqlInt, Text as SqlText};
ghost use Rattle.table_meaning.specs.Rows.{whole as sql_whole, setting_value as sql_setting};
ghost use Rattle.table_rows.specs.Utf8.{IsUtf8Value};

use sqlite::types::ValueRef;
use table_meaning::rows::SettingValue;
use texts::Text;

/// A number below 2^32 as a value of SQL.
pub fn whole<'a>(n: u32) -> ValueRef<'a>
    ensures { owned result ≡ sql_whole n }
{
    ValueRef::Int(i64::from(n))
}

pub(crate) fn text(text: &Text) -> ValueRef<'_>
    ensures value { owned result ≡ SqlText text.now }
    ensures utf8 { IsUtf8 text.now }
{
    ValueRef::Text(text.as_str().as_bytes())
}

pub(crate) fn optional_whole<'a>(n: Option<u32>) -> ValueRef<'a>
    ensures { owned result ≡ or_null sql_whole n }
{
    match n {
        Some(n) => whole(n),
        None => ValueRef::Null,
    }
}

pub(crate) fn optional_int<'a>(n: Option<i64>) -> ValueRef<'a>
    ensures { owned result ≡ or_null SqlInt n }
{
    match n {
        Some(n) => ValueRef::Int(n),
        None => ValueRef::Null,
    }
}

pub(crate) fn optional_text(text: &Option<Text>) -> ValueRef<'_>
    ensures value { owned result ≡ or_null SqlText text.now }
    ensures utf8 { IsUtf8Value (or_null SqlText text.now) }
{
    match text {
        Some(text) => ValueRef::Text(text.as_str().as_bytes()),
        None => ValueRef::Null,
    }
}

pub(crate) fn setting_value(value: &SettingValue) -> ValueRef<'_>
    ensures value { owned result ≡ sql_setting value.now }
    ensures utf8 { IsUtf8Value (sql_setting value.now) }
{
    match value {
        SettingValue::Number(n) => whole(*n),
        SettingValue::Word(word) => text(word),
    }
}
