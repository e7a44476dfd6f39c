//! A window of the queue: the places of what waits from one place on and before another.

ghost use Rattle.std.specs.Prelude.{◌≡◌, ◌++◌, ℕ, Bool, Option, IfOk, IfSome, IsTrue};
ghost use Rattle.sqlite.specs.Held.{state};
ghost use Rattle.sched_book.specs.Offers.{unsent};
ghost use Rattle.sched_book.specs.declared.world.World.{World};
ghost use Rattle.table_meaning.specs.Reads.{Reads};
ghost use Rattle.table_desk.specs.Asked.{LooksUp};
ghost use Rattle.table_desk.specs.Pages.{candidates_at, next_page, unsent_after};
ghost use Rattle.table_desk.specs.WaitingWindow.{is_within, with_wait_at, IsWindowFor, IsWindowOf};

use crate::sorted::{rest_from, set_place};
use sched_book::{Cause, Invariant, Place, Unavailable};
use sqlite::{Alter, Connection};
use std::alloc::Global;
use table_meaning::tables::QueuePage;
use table_rows::queued_from;
use texts::Listed;

/// The most places of a window that is kept.
const MOST_PLACES: usize = 64;

/// Where the next page begins, if this one is full. Unavailable if the last place has the greatest possible number.
pub(crate) fn next_page(page: QueuePage, places: &[Place]) -> Result<Option<Place>, Unavailable>
    ensures { IfOk result (λ next. next ≡ next_page page places.now) }
{
    match places.get(page.size() as usize - 1) {
        None => Ok(None),
        Some(last) => match last.number.checked_add(1) {
            None => Err(Unavailable(Cause::Broken(Invariant::EndOfPage))),
            Some(number) => Ok(Some(Place {
                unit: last.unit,
                number,
            })),
        },
    }
}

/// Whether a place is not before `from`, and before the end if there is one.
fn is_within(from: Place, end: Option<Place>, place: Place) -> bool
    ensures { result ≡ is_within from end place }
{
    if place < from {
        return false;
    }
    match end {
        None => true,
        Some(end) => place < end,
    }
}

/// The places of what waits from one place on and before the end, if there is one. They are as they were read, and as
/// instances came to wait or were given out since.
#[derive(Drop)]
pub struct QueueWindow {
    from: Place,
    end: Option<Place>,
    places: Listed<Place>,
}

impl QueueWindow {
    /// The first places of what waits, from this one on, read by one statement. What the connection shows is unchanged.
    pub(crate) fn read<S: Alter>(
        alloc: Global,
        conn: &mut Connection<S>,
        from: Place,
    ) -> Result<QueueWindow, Unavailable>
        ensures reads { Reads (state S.Store conn.old) (state S.Store conn.new) }
        ensures window { LooksUp S.Store conn.old conn.new (λ w. IfOk result (λ window. IsWindowOf w window × (window.from ≡ from))) }
    {
        let places = queued_from(alloc, conn, from, QueuePage::First)?;
        let end = next_page(QueuePage::First, places.as_slice())?;
        Ok(QueueWindow { from, end, places })
    }

    /// All its places.
    pub(crate) fn places(&self) -> &[Place]
        ensures { result.now ≡ self.now.places }
    {
        self.places.as_slice()
    }

    /// Its places from this one on, if the window has all that waits from there on and before its end.
    pub(crate) fn places_from(&self, from: Place) -> Option<&[Place]>
        ensures { (w : World) → IsWindowOf w self.now → IfSome result (λ places. unsent w from ≡ candidates_at w places.now ++ unsent_after w self.now) }
    {
        if is_within(self.from, self.end, from) {
            Some(rest_from(self.places(), from))
        } else {
            None
        }
    }

    /// From where there may be more after it.
    pub(crate) fn next(&self) -> Option<Place>
        ensures { result ≡ self.now.end }
    {
        self.end
    }

    /// Whether it is worth keeping: it has few places, and at least one if there may be more after it.
    fn is_useful(&self) -> bool {
        self.places.len() <= MOST_PLACES && (self.end.is_none() || !self.places.is_empty())
    }

    /// Takes note that the instance at this place waits from now on, or does not. Says whether the window is worth
    /// keeping. It is not if there was no memory, if it has too many places, or if it has none and there may be more
    /// after it.
    pub fn follow(&mut self, alloc: Global, place: Place, waits: bool) -> bool
        ensures { IsTrue result → (waiting : ℕ → ℕ → Option Bool) → IsWindowFor waiting self.old → IsWindowFor (with_wait_at waiting place.unit place.number waits) self.new }
    {
        if !is_within(self.from, self.end, place) {
            return true;
        }
        set_place(alloc, &mut self.places, place, waits) && self.is_useful()
    }
}
