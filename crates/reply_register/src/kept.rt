//! Kept calls, and what a call is compared with them.

ghost use Rattle.std.specs.Prelude.{◌≡◌, ◌<◌, length, position, Some};
ghost use Rattle.reply_register.specs.Calls.{greatest, has_number, heard, heard_at, is_above_all, IsHeardAs};

use texts::Text;

/// A kept call.
#[derive(Debug, Drop)]
pub struct Kept {
    /// The number of the call, `rpc_seqno`.
    pub seqno: u32,
    /// The canonical text of its request.
    pub text: Text,
    /// The body of its reply.
    pub reply: Text,
}

/// What a call is, compared with the kept calls of its key.
#[derive(Clone, Copy, Debug, PartialEq, Eq)]
pub enum Heard {
    /// Not heard before: its number is above that of each kept call.
    Fresh,
    /// A repeat of the kept call at this place.
    Repeat(usize),
    /// A kept call of its number said something else. The greatest kept number is this one.
    Reused(u32),
    /// No kept call has its number, and the greatest kept number, this one, is above it.
    Stale(u32),
}

/// Compares the call of this number and canonical text with the kept calls of its key, which may be in any order.
#[tactic(auto, using(crate::proofs::Hearing::heard_as))]
pub fn classify(kept: &[Kept], seqno: u32, text: &str) -> Heard
    ensures heard { result ≡ heard kept.now seqno text.now }

    // The same, case by case.
    ensures cases { IsHeardAs kept.now seqno text.now result }
{
    if is_above_all(kept, seqno) {
        return Heard::Fresh;
    }
    match place_of(kept, seqno) {
        None => Heard::Stale(greatest(kept)),
        Some(place) => same_number(kept, place, text),
    }
}

/// What a call with the number of the kept call at this place is, by its text.
fn same_number(kept: &[Kept], place: usize, text: &str) -> Heard
    requires { place < length kept.now }
    ensures { result ≡ heard_at kept.now text.now (Some place) }
{
    if kept[place].text.is(text) {
        Heard::Repeat(place)
    } else {
        Heard::Reused(greatest(kept))
    }
}

fn is_above_all(kept: &[Kept], seqno: u32) -> bool
    ensures { result ≡ is_above_all seqno kept.now }
{
    kept.iter().all(|call| call.seqno < seqno)
}

/// The place of the first kept call of this number.
fn place_of(kept: &[Kept], seqno: u32) -> Option<usize>
    ensures { result ≡ position (has_number seqno) kept.now }
{
    kept.iter().position(|call| call.seqno == seqno)
}

/// The greatest number of these calls; 0 if there are none.
fn greatest(kept: &[Kept]) -> u32
    ensures { result ≡ greatest kept.now }
{
    let mut most = 0;
    for call in kept {
        most = most.max(call.seqno);
    }
    most
}
