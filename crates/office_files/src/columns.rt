//! What one field says, if it is of the wanted form.

ghost use Rattle.std.specs.Prelude.{◌≡◌, ◌≤◌, ◌^◌, IsTrue, IfSome, Some, None, nat_lt, option_map, if◌then◌else◌};
ghost use Rattle.std.specs.Char.{is_ascii_digit};
ghost use Rattle.std.specs.List.{list_all};
ghost use Rattle.std.specs.Str.Parse.{digits_value};
ghost use Rattle.sched_book.specs.Classes.{class_of, first_rule};
ghost use Rattle.sched_book.specs.Limits.{is_user_name, distance_of};
ghost use Rattle.office_files.specs.Columns as spec;

use sched_book::limits::MOST_DISTANCE;
use sched_book::{Agreement, ClassRule};
use texts::utf8_text;

/// The most bytes of an account's name.
const MOST_NAME_BYTES: usize = 64;

/// A text of 1 to 64 bytes of UTF-8.
pub(crate) fn name_in(field: &[u8]) -> Option<&str>
    ensures value { option_map (λ name. name.now) result ≡ spec.name_in field.now }
    ensures range { IfSome result (λ name. IsTrue (is_user_name name.now)) }
{
    if field.is_empty() || MOST_NAME_BYTES < field.len() {
        return None;
    }
    utf8_text(field)
}

fn are_digits(field: &[u8]) -> bool
    ensures { result ≡ list_all is_ascii_digit field.now }
{
    field.iter().all(|byte| byte.is_ascii_digit())
}

/// Whether a field is `0`, or a digit 1 to 9 followed by digits.
fn is_count_text(field: &[u8]) -> bool
    ensures { result ≡ spec.is_count_text field.now }
{
    let [first, ..] = field else {
        return false;
    };
    field == b"0".as_slice() || (b'1' <= *first && are_digits(field))
}

/// The value of a count text, if it is below 2^64.
fn value_of_count(field: &[u8]) -> Option<u64>
    requires { IsTrue (spec.is_count_text field.now) }
    ensures { result ≡ (if nat_lt (digits_value 10 field.now) (2 ^ 64) then Some (digits_value 10 field.now) else None) }
{
    let Some(text) = utf8_text(field) else {
        return None;
    };
    match text.parse::<u64>() {
        Ok(value) => Some(value),
        Err(_) => None,
    }
}

/// The number of a count text, if it is from `least` to `most`.
pub(crate) fn number_in(field: &[u8], least: u64, most: u64) -> Option<u64>
    ensures value { result ≡ spec.count_within least most field.now }
    ensures range { IfSome result (λ n. (least ≤ n) × (n ≤ most)) }
{
    if !is_count_text(field) {
        return None;
    }
    match value_of_count(field) {
        Some(value) if least <= value && value <= most => Some(value),
        _ => None,
    }
}

/// `exact`, or `within:` and a count text up to 1,000,000,000.
pub(crate) fn agreement_in(field: &[u8]) -> Option<Agreement>
    ensures value { result ≡ spec.agreement_in field.now }
    ensures range { IfSome result (λ agreement. distance_of agreement ≤ MOST_DISTANCE) }
{
    if field == b"exact".as_slice() {
        return Some(Agreement::Exact);
    }
    let Some(distance) = field.strip_prefix(b"within:".as_slice()) else {
        return None;
    };
    match number_in(distance, 0, MOST_DISTANCE) {
        None => None,
        Some(distance) => Some(Agreement::Within(distance as u32)),
    }
}

/// The mark of a workunit: `0`, or `1` for one that keeps to the class of its first version.
pub(crate) fn rule_in(field: &[u8]) -> Option<ClassRule>
    ensures value { result ≡ spec.rule_in field.now }
    ensures first { IfSome result (λ rule. (class_of rule ≡ None) × (first_rule rule ≡ rule)) }
{
    if field == b"0".as_slice() {
        return Some(ClassRule::Any);
    }
    if field == b"1".as_slice() {
        return Some(ClassRule::OfFirst);
    }
    None
}
