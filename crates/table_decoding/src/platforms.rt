//! The platforms of a host, as one text.

ghost use Rattle.std.specs.Prelude.{◌≡◌, ℕ, List, IfOk};
ghost use Rattle.std.specs.List.{slice_split};
ghost use Rattle.table_meaning.specs.Worlds.{joined};
ghost use Rattle.table_worlds.specs.ReadBack.{is_comma};
ghost use Rattle.table_decoding.specs.Decoding.{ArePlatforms};

use std::alloc::Global;
use texts::{Listed, Memory, Text};

/// The platforms of a text, where they are separated by commas.
pub(crate) fn platforms(alloc: Global, text: &str) -> Result<Listed<Text>, Memory>
    ensures given { (words : List (List ℕ)) → ArePlatforms words → text.now ≡ joined words → IfOk result (λ platforms. platforms ≡ words) }
    ensures read { IfOk result (λ platforms. platforms ≡ slice_split is_comma text.now) }
{
    let mut platforms = Listed::new(alloc);
    for word in text.split(',') {
        platforms.push(Text::copied(alloc, word)?)?;
    }
    Ok(platforms)
}
