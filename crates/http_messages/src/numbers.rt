//! Numbers in a head, written in decimal digits.

ghost use Rattle.std.specs.Prelude.{◌≡◌};
ghost use Rattle.std.specs.Char.{is_ascii_digit};
ghost use Rattle.std.specs.List.{list_all};
ghost use Rattle.http_messages.specs.Numbers as spec;

use rpc_records::MOST_NUMBER;
use texts::utf8_text;

/// The most digits of a length.
const MOST_LENGTH_DIGITS: usize = 10;

fn are_all_digits(text: &[u8]) -> bool
    ensures { result ≡ list_all is_ascii_digit text.now }
{
    text.iter().all(|byte| byte.is_ascii_digit())
}

/// Whether there is at least one byte, and each is a digit.
fn are_digits(text: &[u8]) -> bool
    ensures { result ≡ spec.are_digits text.now }
{
    0 < text.len() && are_all_digits(text)
}

/// The number that digits say, if it is below 2^64.
fn number_in(text: &[u8]) -> Option<u64>
    ensures { result ≡ spec.u64_in text.now }
{
    if !are_digits(text) {
        return None;
    }
    let Some(digits) = utf8_text(text) else {
        return None;
    };
    match digits.parse::<u64>() {
        Ok(number) => Some(number),
        Err(_) => None,
    }
}

/// The length that 1 to 10 digits say.
pub(crate) fn length_in(text: &[u8]) -> Option<u64>
    ensures { result ≡ spec.length_in text.now }
{
    if MOST_LENGTH_DIGITS < text.len() {
        return None;
    }
    number_in(text)
}

fn begins_above_zero(text: &[u8]) -> bool
    ensures { result ≡ spec.begins_above_zero text.now }
{
    match text {
        [digit, ..] => b'0' < *digit,
        [] => false,
    }
}

/// The number of a host, 1 to 2,147,483,647, that digits without a leading zero say.
pub(crate) fn host_in(text: &[u8]) -> Option<u32>
    ensures { result ≡ spec.host_in text.now }
{
    if !begins_above_zero(text) {
        return None;
    }
    match number_in(text) {
        Some(number) if number <= u64::from(MOST_NUMBER) => Some(number as u32),
        Some(_) | None => None,
    }
}
