//! Offers of the waiting instances to a taker, a page of places at a time.

ghost use Rattle.std.specs.Prelude.{◌≡◌, ◌++◌, Some, IfOk, IfSome, IsTrue, OnOk, OnErr};
ghost use Rattle.sqlite.specs.Held.{state};
ghost use Rattle.sched_book.specs.Offers.{unsent, OffersAll, OffersSome, Offered, OfferedSome, Leads};
ghost use Rattle.sched_book.specs.declared.desk.Candidate.{Candidate as BookCandidate};
ghost use Rattle.sched_book.specs.declared.desk.Flow.TheVariants.{GoOn};
ghost use Rattle.table_meaning.specs.Reads.{Reads};
ghost use Rattle.table_desk.specs.Asked.{LooksUp};
ghost use Rattle.table_desk.specs.Skips.{IsCovered};
ghost use Rattle.sched_book.specs.Offers.{OrSkips};
ghost use Rattle.table_desk.specs.Pages.{candidate_at, candidates_at, unsent_on, unsent_after};
ghost use Rattle.table_desk.specs.WaitingWindow.{IsWindowOf};

use crate::skip::Skip;
use crate::window::{QueueWindow, next_page};
use crate::workunits::unit_at;
use sched_book::limits::{MOST_INSTANCES, MOST_WORKUNITS};
use sched_book::{App, Candidate, Cause, Flow, Invariant, Place, Taker, Unavailable, Workunit};
use sqlite::{Alter, Connection};
use std::alloc::Global;
use table_meaning::tables::QueuePage;
use table_rows::queued_from;
use texts::Memory;

/// More pages of 64 places than the instances of all workunits fill.
const MOST_PAGES: usize = MOST_WORKUNITS * MOST_INSTANCES / 64 + 2;

/// Who knows some workunits, so they need not be read.
pub trait KnownUnits {
    ghost use Rattle.sched_book.specs.declared.world.World.{World};
    ghost use Rattle.sched_book.specs.Desk.{workunit_at};

    /// What it knows is true of this world.
    ghost are_of: { World → Self → Type 0 };

    /// The workunit at this place, if it is known.
    fn known_unit(&self, unit: u32) -> Result<Option<Workunit>, Memory>
        ensures { (w : World) → are_of w self.now → IfOk result (λ r. IfSome r (λ u. workunit_at w unit ≡ Some u)) };
}

/// What offers are made with.
#[derive(Drop)]
pub struct Offering<'a, K> {
    /// All applications.
    pub apps: &'a [App],
    /// Who knows some workunits. One that is not known is read.
    pub known: &'a K,
    /// Where no candidate need be offered.
    pub skip: &'a Skip,
}

impl<K: KnownUnits> Offering<'_, K> {
    /// Offers the candidate at this place, and says whether the taker wants more. The workunit is read if it is not known.
    /// Unavailable if there is no such workunit. What the connection shows is unchanged.
    fn offer_at<S: Alter, T: Taker>(
        &self,
        alloc: Global,
        conn: &mut Connection<S>,
        place: Place,
        taker: &mut T,
    ) -> Result<Flow, Unavailable>
        ensures reads { Reads (state S.Store conn.old) (state S.Store conn.new) }
        ensures offered { LooksUp S.Store conn.old conn.new (λ w. self.now.apps.now ≡ w.apps → K.are_of w self.now.known.now
            → IfOk result (λ flow. (c : BookCandidate) × (candidate_at w place ≡ Some c) × T.takes taker.old c flow taker.new)) }
        ensures none { OnErr result (taker.new ≡ taker.old) }
    {
        if let Some(unit) = self.known.known_unit(place.unit)? {
            return Ok(taker.offer(&Candidate { place, unit }));
        }
        match unit_at(alloc, conn, self.apps, place.unit)? {
            None => Err(Unavailable(Cause::Broken(Invariant::OfferedUnit))),
            Some(unit) => Ok(taker.offer(&Candidate { place, unit })),
        }
    }

    /// Whether no candidate at this place need be offered: the skip covers it, or the taker passes over it.
    fn is_skipped<T: Taker>(&self, taker: &T, place: Place) -> bool
        ensures { IsTrue result → (c : BookCandidate) → c.place ≡ place → OrSkips (IsCovered self.now.skip.now) T.takes taker.now c GoOn taker.now }
    {
        self.skip.covers(place) || taker.passes_over(place)
    }

    /// Offers the candidates at these places, except those that are left out, and says whether the taker wants more. What
    /// the connection shows is unchanged.
    fn offer_each<S: Alter, T: Taker>(
        &self,
        alloc: Global,
        conn: &mut Connection<S>,
        places: &[Place],
        taker: &mut T,
    ) -> Result<Flow, Unavailable>
        ensures reads { Reads (state S.Store conn.old) (state S.Store conn.new) }
        ensures all { LooksUp S.Store conn.old conn.new (λ w. self.now.apps.now ≡ w.apps → K.are_of w self.now.known.now → IfOk result (Offered (OrSkips (IsCovered self.now.skip.now) T.takes) taker.old (candidates_at w places.now) taker.new)) }
        ensures some { LooksUp S.Store conn.old conn.new (λ w. self.now.apps.now ≡ w.apps → K.are_of w self.now.known.now → OnErr result (OfferedSome (OrSkips (IsCovered self.now.skip.now) T.takes) taker.old (candidates_at w places.now) taker.new)) }
    {
        for place in places {
            if self.is_skipped(taker, *place) {
                continue;
            }
            match self.offer_at(alloc, conn, *place, taker)? {
                Flow::GoOn => {}
                Flow::Stop => return Ok(Flow::Stop),
            }
        }
        Ok(Flow::GoOn)
    }

    /// Offers one further page of what waits, from this place on. Returns from where there may be more. What the connection
    /// shows is unchanged.
    fn offer_page<S: Alter, T: Taker>(
        &self,
        alloc: Global,
        conn: &mut Connection<S>,
        from: Place,
        taker: &mut T,
    ) -> Result<Option<Place>, Unavailable>
        ensures reads { Reads (state S.Store conn.old) (state S.Store conn.new) }
        ensures all { LooksUp S.Store conn.old conn.new (λ w. self.now.apps.now ≡ w.apps → K.are_of w self.now.known.now → IfOk result (λ next. Leads (OrSkips (IsCovered self.now.skip.now) T.takes) taker.old (unsent w from) taker.new (unsent_on w next))) }
        ensures some { LooksUp S.Store conn.old conn.new (λ w. self.now.apps.now ≡ w.apps → K.are_of w self.now.known.now → OnErr result (OffersSome (OrSkips (IsCovered self.now.skip.now) T.takes) taker.old (unsent w from) taker.new)) }
    {
        let queued = queued_from(alloc, conn, self.skip.next(from), QueuePage::Further)?;
        match self.offer_each(alloc, conn, queued.as_slice(), taker)? {
            Flow::Stop => Ok(None),
            Flow::GoOn => next_page(QueuePage::Further, queued.as_slice()),
        }
    }

    /// Offers what waits from this place on, if there is one, one further page after another. What the connection shows is
    /// unchanged.
    fn offer_pages<S: Alter, T: Taker>(
        &self,
        alloc: Global,
        conn: &mut Connection<S>,
        from: Option<Place>,
        taker: &mut T,
    ) -> Result<(), Unavailable>
        ensures reads { Reads (state S.Store conn.old) (state S.Store conn.new) }
        ensures all { LooksUp S.Store conn.old conn.new (λ w. self.now.apps.now ≡ w.apps → K.are_of w self.now.known.now → OnOk result (OffersAll (OrSkips (IsCovered self.now.skip.now) T.takes) taker.old (unsent_on w from) taker.new)) }
        ensures some { LooksUp S.Store conn.old conn.new (λ w. self.now.apps.now ≡ w.apps → K.are_of w self.now.known.now → OnErr result (OffersSome (OrSkips (IsCovered self.now.skip.now) T.takes) taker.old (unsent_on w from) taker.new)) }
    {
        let mut next = from;
        for _turn in 0..MOST_PAGES {
            match next {
                None => return Ok(()),
                Some(place) => next = self.offer_page(alloc, conn, place, taker)?,
            }
        }
        Err(Unavailable(Cause::Broken(Invariant::PagesOfOffers)))
    }

    /// Offers the candidates at these places of a window, and then what waits after the window. What the connection shows
    /// is unchanged.
    fn offer_on<S: Alter, T: Taker>(
        &self,
        alloc: Global,
        conn: &mut Connection<S>,
        window: &QueueWindow,
        places: &[Place],
        taker: &mut T,
    ) -> Result<(), Unavailable>
        ensures reads { Reads (state S.Store conn.old) (state S.Store conn.new) }
        ensures all { LooksUp S.Store conn.old conn.new (λ w. self.now.apps.now ≡ w.apps → K.are_of w self.now.known.now → OnOk result (OffersAll (OrSkips (IsCovered self.now.skip.now) T.takes) taker.old (candidates_at w places.now ++ unsent_after w window.now) taker.new)) }
        ensures some { LooksUp S.Store conn.old conn.new (λ w. self.now.apps.now ≡ w.apps → K.are_of w self.now.known.now → OnErr result (OffersSome (OrSkips (IsCovered self.now.skip.now) T.takes) taker.old (candidates_at w places.now ++ unsent_after w window.now) taker.new)) }
    {
        match self.offer_each(alloc, conn, places, taker)? {
            Flow::Stop => Ok(()),
            Flow::GoOn => self.offer_pages(alloc, conn, window.next(), taker),
        }
    }

    /// Offers the instances of open workunits that were given to nobody, in the order of their places, from this place on.
    /// The offers end when the taker says stop. A candidate that the skip covers or that the taker passes over is not
    /// offered. Pages are read from the first place on that the skip does not cover. If the window that was read last has
    /// what waits there, the offers begin on that window. If not, another window is read and replaces it. A workunit is read
    /// if it is not known. If the tables are unavailable, the offers end early. What the connection shows is unchanged.
    pub fn unsent_from<S: Alter, T: Taker>(
        &self,
        alloc: Global,
        conn: &mut Connection<S>,
        read: &mut Option<QueueWindow>,
        from: Place,
        taker: &mut T,
    ) -> Result<(), Unavailable>
        ensures reads { Reads (state S.Store conn.old) (state S.Store conn.new) }
        ensures window { LooksUp S.Store conn.old conn.new (λ w. IfSome read.old (IsWindowOf w) → IfSome read.new (IsWindowOf w)) }
        ensures all { LooksUp S.Store conn.old conn.new (λ w. self.now.apps.now ≡ w.apps → K.are_of w self.now.known.now → IfSome read.old (IsWindowOf w) → OnOk result (OffersAll (OrSkips (IsCovered self.now.skip.now) T.takes) taker.old (unsent w from) taker.new)) }
        ensures some { LooksUp S.Store conn.old conn.new (λ w. self.now.apps.now ≡ w.apps → K.are_of w self.now.known.now → IfSome read.old (IsWindowOf w) → OnErr result (OffersSome (OrSkips (IsCovered self.now.skip.now) T.takes) taker.old (unsent w from) taker.new)) }
    {
        let from = self.skip.next(from);
        if let Some(window) = read {
            if let Some(places) = window.places_from(from) {
                return self.offer_on(alloc, conn, window, places, taker);
            }
        }
        let window = QueueWindow::read(alloc, conn, from)?;
        let offered = self.offer_on(alloc, conn, &window, window.places(), taker);
        *read = Some(window);
        offered
    }
}
