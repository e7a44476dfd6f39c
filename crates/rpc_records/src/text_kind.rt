//! What the texts of a request must be like.

ghost use Rattle.std.specs.Prelude.{◌≡◌};
ghost use Rattle.rpc_records.specs.Members.{is_name, is_of};

use texts::is_word;

const MOST_NAME_BYTES: usize = 254;

const MOST_OUTPUT_BYTES: usize = 1_024;

/// What a text must be like.
#[derive(Clone, Copy)]
pub(crate) enum TextKind {
    /// A word: ASCII letters, digits, `-`, `.` and `_`.
    Word,
    /// The name of a result.
    Name,
    /// What a job wrote.
    Output,
}

impl TextKind {
    pub(crate) fn has(self, text: &str) -> bool
        ensures { result ≡ is_of self text.now }
    {
        match self {
            TextKind::Word => is_word(text.as_bytes()),
            TextKind::Name => is_name(text),
            TextKind::Output => text.len() <= MOST_OUTPUT_BYTES,
        }
    }
}

fn is_name(text: &str) -> bool
    ensures { result ≡ is_name text.now }
{
    1 <= text.len() && text.len() <= MOST_NAME_BYTES
}
