//! The last number of a row of one kind. It is known once the rows were counted.

ghost use Rattle.std.specs.Prelude.{IfSome, IsTrue};
ghost use Rattle.table_cache.specs.LastNumbers.{IsAtMost, IsPastLast};

/// Whether the last number is known, and this one is greater. So there was no row of this number.
pub(crate) fn is_past(last: Option<u32>, number: u32) -> bool
    ensures { IsTrue result → IsPastLast last number }
{
    match last {
        None => false,
        Some(last) => last < number,
    }
}

/// The last number after a row of this number was put. `None` if it was not known.
pub(crate) fn last_with(last: Option<u32>, number: u32) -> Option<u32>
    ensures { IfSome result (IsAtMost last number) }
{
    match last {
        None => None,
        Some(last) => Some(if last < number { number } else { last }),
    }
}
