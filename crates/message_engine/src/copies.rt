//! Copies of what is kept.

ghost use Rattle.std.specs.Prelude.{◌≡◌, IfOk};

use std::alloc::Global;
use stores::KeptBatch;
use texts::{Listed, Memory};

/// Returns a copy of a kept import, which is equal to it.
pub(crate) fn copy_batch(alloc: Global, kept: &KeptBatch) -> Result<KeptBatch, Memory>
    ensures { IfOk result (λ copy. copy ≡ kept.now) }
{
    Ok(KeptBatch {
        text: Listed::of(kept.text.as_slice().to_vec(alloc)?),
        answer: kept.answer.clone()?,
    })
}
