//! Texts that contracts see as their bytes.

ghost use Rattle.std.specs.Prelude.{◌≡◌, ◌==◌, List, ℕ, nat_eq, refl, length, Some, None, IfOk, option_map, if◌then◌else◌};
ghost use Rattle.std.specs.Str.{bytes_eq, is_utf8};
ghost use Rattle.std.specs.String.{string_bytes};
ghost use Rattle.std.specs.Ordering.{nat_cmp};
ghost use Rattle.std.specs.Cmp.{partial_equiv_from_equiv};
ghost use Rattle.std.specs.Cmp.Lexicographic.{pointwise, slice_cmp, nat_list_eq_equiv, nat_list_cmp_total, texts_ties, texts_po};

use crate::Memory;
use crate::same::Same;
use arrayvec::ArrayString;
use std::alloc::Global;
use std::cmp::Ordering;
use std::marker::Model;
use std::{fmt, str};

/// The most bytes of a text that takes no memory beside its value.
const MOST_SHORT: usize = 24;

/// Where the bytes of a text are.
#[derive(Drop)]
enum Bytes {
    /// In the value itself.
    Short(ArrayString<MOST_SHORT>),
    /// In memory of their own.
    Long(String),
}

/// A text. Contracts see it as the list of its bytes in UTF-8. A short one is copied without taking memory.
#[derive(Drop)]
pub struct Text {
    bytes: Bytes,
}

impl Model for Text {
    ghost use Rattle.std.specs.Prelude.{List, ℕ};
    ghost use Rattle.texts.specs.Texts.{bytes_in};

    ghost Value = { List ℕ };

    ghost view = { λ t. bytes_in t.bytes };
}

impl Text {
    /// Returns a copy of `text`.
    pub fn copied(alloc: Global, text: &str) -> Result<Text, Memory>
        ensures { IfOk result (λ t. t ≡ text.now) }
    {
        let bytes = match ArrayString::from(text) {
            Ok(short) => Bytes::Short(short),
            Err(_) => Bytes::Long(String::from_str(alloc, text)?),
        };
        Ok(Text { bytes })
    }

    /// Returns the text in `text`, which is not copied unless it is short.
    pub fn of(text: String) -> Text
        ensures { result ≡ string_bytes text }
    {
        let bytes = match ArrayString::from(text.as_str()) {
            Ok(short) => Bytes::Short(short),
            Err(_) => Bytes::Long(text),
        };
        Text { bytes }
    }

    pub fn as_str(&self) -> &str
        ensures { result.now ≡ self.now }
    {
        match &self.bytes {
            Bytes::Short(text) => text.as_str(),
            Bytes::Long(text) => text.as_str(),
        }
    }

    /// Its length in bytes.
    pub fn len(&self) -> usize
        ensures { result ≡ length self.now }
    {
        self.as_str().len()
    }

    pub fn is_empty(&self) -> bool
        ensures { result ≡ (length self.now == 0) }
    {
        self.len() == 0
    }

    /// Whether it has just the bytes of `other`.
    pub fn is(&self, other: &str) -> bool
        ensures { result ≡ bytes_eq self.now other.now }
    {
        self.as_str() == other
    }
}

/// The text in these bytes, if they are UTF-8 (RFC 3629).
pub fn utf8_text(bytes: &[u8]) -> Option<&str>
    ensures { option_map (λ text. text.now) result ≡ (if is_utf8 bytes.now then Some bytes.now else None) }
{
    match str::from_utf8(bytes) {
        Ok(text) => Some(text),
        Err(_) => None,
    }
}

impl Clone for Text {
    ghost is_clone = { λ text copy. text ≡ copy };

    fn clone(&self) -> Result<Text, Memory> {
        let bytes = match &self.bytes {
            Bytes::Short(text) => Bytes::Short(*text),
            Bytes::Long(text) => Bytes::Long(text.clone()?),
        };
        Ok(Text { bytes })
    }
}

impl Same for Text {
    ghost exact = { λ text copy is_copy. is_copy };
}

impl PartialEq for Text {
    ghost eq = { pointwise nat_eq };

    ghost laws = { partial_equiv_from_equiv nat_list_eq_equiv };

    fn eq(&self, other: &Self) -> bool {
        self.as_str().as_bytes() == other.as_str().as_bytes()
    }
}

impl Eq for Text {
    ghost laws = { nat_list_eq_equiv };
}

impl PartialOrd for Text {
    ghost partial_cmp = { λ x y. Some (slice_cmp nat_cmp x y) };

    ghost laws = { texts_po };

    fn partial_cmp(&self, other: &Self) -> Option<Ordering> {
        Some(self.cmp(other))
    }
}

/// By the bytes; the first that differs decides.
impl Ord for Text {
    ghost cmp = { slice_cmp nat_cmp };

    ghost total = { nat_list_cmp_total };

    ghost matches_partial_cmp = { λ x y. refl };

    ghost matches_eq = { texts_ties };

    fn cmp(&self, other: &Self) -> Ordering {
        self.as_str().as_bytes().cmp(other.as_str().as_bytes())
    }
}

impl fmt::Debug for Text {
    fn fmt<W: fmt::Write>(&self, f: &mut fmt::Formatter<W>) -> fmt::Result {
        self.as_str().fmt(f)
    }
}
