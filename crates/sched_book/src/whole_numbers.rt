//! Texts of whole numbers, by which an application may compare its outputs.

ghost use Rattle.std.specs.Prelude.{◌≡◌, ◌<◌, ◌≤◌, ◌^◌, if◌then◌else◌, Some, None, IfSome, length};
ghost use Rattle.std.specs.Char.{is_ascii_digit};
ghost use Rattle.std.specs.List.{list_all};
ghost use Rattle.sched_book.specs.WholeNumbers.{decimal_value, magnitude, whole_number, are_within};

/// The number that these bytes denote, if they are digits.
fn number_of_digits(text: &[u8]) -> Option<u64>
    requires few { length text.now ≤ 18 }
    ensures value { result ≡ (if list_all is_ascii_digit text.now then Some (decimal_value text.now) else None) }
    ensures small { IfSome result (λ n. n < 10 ^ 18) }
{
    let mut number = 0;
    for byte in text {
        if !byte.is_ascii_digit() {
            return None;
        }
        number = 10 * number + u64::from(*byte - b'0');
    }
    Some(number)
}

/// Reads a digit from 1 to 9 and at most 17 more.
fn magnitude_of(text: &[u8]) -> Option<u64>
    ensures value { result ≡ magnitude text.now }
    ensures small { IfSome result (λ n. n < 10 ^ 18) }
{
    let [first, rest @ ..] = text else {
        return None;
    };
    if *first >= b'1' && rest.len() <= 17 {
        number_of_digits(text)
    } else {
        None
    }
}

/// Reads a whole number: `0`, or a magnitude with or without a minus sign.
pub(crate) fn whole_number_of(text: &[u8]) -> Option<i64>
    ensures { result ≡ whole_number text.now }
{
    let [first, rest @ ..] = text else {
        return None;
    };
    if text == b"0".as_slice() {
        return Some(0);
    }
    if *first == b'-' {
        match magnitude_of(rest) {
            None => None,
            Some(magnitude) => Some(-(magnitude as i64)),
        }
    } else {
        match magnitude_of(text) {
            None => None,
            Some(magnitude) => Some(magnitude as i64),
        }
    }
}

/// Whether both are whole numbers, and at most `distance` apart.
pub(crate) fn are_numbers_within(distance: u32, left: Option<i64>, right: Option<i64>) -> bool
    ensures { result ≡ are_within distance left right }
{
    match (left, right) {
        (Some(left), Some(right)) => left.abs_diff(right) <= u64::from(distance),
        _ => false,
    }
}
