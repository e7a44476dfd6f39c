//! Words: the names of authenticators, hosts, applications, platforms, workunits and batches.

ghost use Rattle.std.specs.Prelude.{◌≡◌, option_map};
ghost use Rattle.std.specs.List.{list_all};
ghost use Rattle.texts.specs.Words as spec;

use std::str;

/// The most bytes of a word.
pub const MOST_WORD_BYTES: usize = 64;

/// Whether `text` is a word: 1 to 64 bytes, each an ASCII letter, a digit, `_`, `-` or `.`.
pub fn is_word(text: &[u8]) -> bool
    ensures { result ≡ spec.is_word text.now }
{
    1 <= text.len() && text.len() <= MOST_WORD_BYTES && are_word_bytes(text)
}

/// The word in these bytes, if they are one.
pub fn word_of(text: &[u8]) -> Option<&str>
    ensures { option_map (λ word. word.now) result ≡ spec.word_of text.now }
{
    if !is_word(text) {
        return None;
    }
    match str::from_utf8(text) {
        Ok(word) => Some(word),
        Err(_) => None,
    }
}

fn are_word_bytes(text: &[u8]) -> bool
    ensures { result ≡ list_all spec.is_word_byte text.now }
{
    text.iter().all(|byte| is_word_byte(*byte))
}

fn is_word_byte(byte: u8) -> bool
    ensures { result ≡ spec.is_word_byte byte }
{
    byte.is_ascii_alphanumeric() || byte == b'_' || byte == b'-' || byte == b'.'
}
