//! What is kept of a key once one more call is kept.

ghost use Rattle.std.specs.Prelude.{◌≡◌, ◌<◌, ◌++◌, length, IfOk, OnOk};
ghost use Rattle.reply_register.specs.Keeping.{IsKeptWith, IsLeastAt};

use crate::kept::Kept;
use std::alloc::Global;
use texts::{Listed, Memory};

/// How many calls of a key are kept.
pub const MOST_KEPT: usize = 4;

/// Returns a copy of a kept call, which is equal to it.
pub fn copy_kept(kept: &Kept) -> Result<Kept, Memory>
    ensures { IfOk result (λ copy. copy ≡ kept.now) }
{
    Ok(Kept {
        seqno: kept.seqno,
        text: kept.text.clone()?,
        reply: kept.reply.clone()?,
    })
}

/// Adds copies of these calls after the others.
fn append_copies(calls: &mut Listed<Kept>, more: &[Kept]) -> Result<(), Memory>
    ensures { OnOk result (calls.new ≡ calls.old ++ more.now) }
{
    for kept in more {
        calls.push(copy_kept(kept)?)?;
    }
    Ok(())
}

/// The place of the first call with the least number.
fn least_of(kept: &[Kept]) -> usize
    requires { 0 < length kept.now }
    ensures { IsLeastAt kept.now result }
{
    let mut least = 0;
    for (place, call) in kept.iter().enumerate() {
        if call.seqno < kept[least].seqno {
            least = place;
        }
    }
    least
}

/// What is kept of a key once this call is kept in front of the older ones.
pub(crate) fn kept_with(alloc: Global, kept: Kept, older: &[Kept]) -> Result<Listed<Kept>, Memory>
    ensures { IfOk result (λ calls. IsKeptWith kept older.now calls) }
{
    let mut calls = Listed::new(alloc);
    calls.push(kept)?;
    if older.len() < MOST_KEPT {
        append_copies(&mut calls, older)?;
    } else {
        let least = least_of(older);
        append_copies(&mut calls, &older[..least])?;
        append_copies(&mut calls, &older[least + 1..])?;
    }
    Ok(calls)
}
