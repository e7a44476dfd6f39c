//! Numbers among the words of a command line.

ghost use Rattle.std.specs.Prelude.{◌≡◌, ◌≤◌, ◌^◌, IfSome, IsTrue, Some, None, nat_lt, if◌then◌else◌};
ghost use Rattle.std.specs.Char.{is_ascii_digit};
ghost use Rattle.std.specs.List.{list_all};
ghost use Rattle.std.specs.Str.Parse.{digits_value};
ghost use Rattle.command_line.specs.Numbers as spec;

/// The number in a text, which must be a digit 1 to 9 followed by digits, if it is at most `most`.
pub(crate) fn number_up_to(most: u32, text: &str) -> Option<u32>
    ensures value { result ≡ spec.number_up_to most text.now }
    ensures range { IfSome result (λ n. n ≤ most) }
{
    if !is_number_text(text.as_bytes()) {
        return None;
    }
    match value_of(text) {
        Some(value) if value <= most => Some(value),
        _ => None,
    }
}

/// The number that such a text says, if it is below 2^32.
fn value_of(text: &str) -> Option<u32>
    requires { IsTrue (spec.is_number_text text.now) }
    ensures { result ≡ (if nat_lt (digits_value 10 text.now) (2 ^ 32) then Some (digits_value 10 text.now) else None) }
{
    match text.parse::<u32>() {
        Ok(value) => Some(value),
        Err(_) => None,
    }
}

fn is_number_text(text: &[u8]) -> bool
    ensures { result ≡ spec.is_number_text text.now }
{
    let [first, ..] = text else {
        return false;
    };
    b'1' <= *first && are_digits(text)
}

fn are_digits(text: &[u8]) -> bool
    ensures { result ≡ list_all is_ascii_digit text.now }
{
    text.iter().all(|byte| byte.is_ascii_digit())
}
