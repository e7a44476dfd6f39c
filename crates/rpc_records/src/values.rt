//! What one value of JSON says, if it is of the wanted form.

ghost use Rattle.std.specs.Prelude.{◌≡◌, option_map};
ghost use Rattle.serde_json.specs.View.{view, items_view};
ghost use Rattle.rpc_records.specs.Values.{text_in, whole_in, status_in, items_in};

use crate::text_kind::TextKind;
use serde_json::Value;

/// A text of this kind.
pub(crate) fn text_in(value: &Value, kind: TextKind) -> Option<&str>
    ensures { option_map (λ text. text.now) result ≡ text_in kind (view value.now) }
{
    let text = value.as_str()?;
    if kind.has(text) { Some(text) } else { None }
}

/// A whole number from `least` to `most`.
pub(crate) fn whole_in(value: &Value, least: u64, most: u64) -> Option<u64>
    ensures { result ≡ whole_in least most (view value.now) }
{
    let whole = value.as_u64()?;
    if least <= whole && whole <= most {
        Some(whole)
    } else {
        None
    }
}

/// A whole number of 32 bits with its sign.
pub(crate) fn status_in(value: &Value) -> Option<i32>
    ensures { result ≡ status_in (view value.now) }
{
    let status = value.as_i64()?;
    if i64::from(i32::MIN) <= status && status <= i64::from(i32::MAX) {
        Some(status as i32)
    } else {
        None
    }
}

/// The items of an array that has at most `most`.
#[tactic(auto, using(crate::proofs::Arrays::array_lengths))]
pub(crate) fn items_in(value: &Value, most: usize) -> Option<&[Value]>
    ensures { option_map (λ items. items_view items.now) result ≡ items_in most (view value.now) }
{
    let items = value.as_array()?;
    if items.len() <= most {
        Some(items.as_slice())
    } else {
        None
    }
}
