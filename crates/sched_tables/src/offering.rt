//! What waits is offered. If the window that was read last has the place, the offers begin on it. The window is
//! remembered, and so are the workunits of the first offers.

ghost use Rattle.std.specs.Prelude.{◌≡◌, All, OnErr, OnOk};
ghost use Rattle.sched_book.specs.Offers.{OffersAll, OffersSome, unsent};
ghost use Rattle.sched_book.specs.declared.world.World.{World};
ghost use Rattle.sched_book.specs.Offers.{OrSkips};
ghost use Rattle.sched_tables.specs.Held.{IsHonest};
ghost use Rattle.sched_tables.specs.Offering.{IsCandidateOf, MaySkip};
ghost use Rattle.table_cache.specs.Remembering.{IsUnitOf};
ghost use Rattle.sched_book.specs.Skipping.{HadAllBefore};
ghost use Rattle.sched_tables.specs.Views.{state_of, world_of, AreKept, AreReadOn};

use crate::tables::Tables;
use sched_book::{Candidate, Flow, Place, Taker, Unavailable, copy_of};
use sqlite::Alter;
use table_cache::UnitRead;
use table_desk::Offering;

/// Of how many offers of one look-up the workunits are remembered, at most.
const MOST_NOTED: usize = 16;

/// A taker that passes each offer on to another taker, and notes the workunits of the first ones.
pub(crate) struct Noting<'a, T> {
    pub(crate) taker: &'a mut T,
    pub(crate) noted: &'a mut Vec<UnitRead>,
}

impl<'a, T> Drop for Noting<'a, T> {
    fn drop(self)
        ensures taker { self.exit.0.now ≡ self.entry.taker.now }
        ensures noted { self.exit.1.0.now ≡ self.entry.noted.now }
    {
        let Noting { taker: _, noted: _ } = self;
    }
}

/// Notes the workunit of a candidate, if fewer than `MOST_NOTED` were noted and there is memory for it.
fn note(noted: &mut Vec<UnitRead>, candidate: &Candidate)
    ensures { (w : World) → IsCandidateOf w candidate.now → All (IsUnitOf w) noted.old.items → All (IsUnitOf w) noted.new.items }
{
    if noted.len() < MOST_NOTED {
        if let Ok(row) = copy_of(&candidate.unit) {
            let _ = noted.push(UnitRead {
                place: candidate.place.unit,
                row,
            });
        }
    }
}

impl<'a, T: Taker> Taker for Noting<'a, T> {
    ghost use Rattle.std.specs.Prelude.{◌≡◌, All};
    ghost use Rattle.sched_book.specs.declared.world.World.{World};
    ghost use Rattle.sched_tables.specs.Offering.{IsCandidateOf};
    ghost use Rattle.table_cache.specs.Remembering.{IsUnitOf};

    ghost takes = { λ old c flow new. T.takes old.taker.now c flow new.taker.now
        × ((w : World) → IsCandidateOf w c → All (IsUnitOf w) old.noted.now.items → All (IsUnitOf w) new.noted.now.items)
        × (new.taker.ghost_name ≡ old.taker.ghost_name) × (new.noted.ghost_name ≡ old.noted.ghost_name) };

    fn offer(&mut self, candidate: &Candidate) -> Flow {
        note(self.noted, candidate);
        self.taker.offer(candidate)
    }

    fn passes_over(&self, place: Place) -> bool {
        self.taker.passes_over(place)
    }
}

impl<S: Alter> Tables<S> {
    /// Offers what waits from this place on, and notes the workunits of the first offers. If an account is named, it leaves
    /// out what the skip of its user covers. The window on which the offers begin is remembered.
    pub(crate) fn offer_from<T: Taker>(
        &mut self,
        account: Option<u32>,
        from: Place,
        taker: &mut T,
        noted: &mut Vec<UnitRead>,
    ) -> Result<(), Unavailable>
        ensures reads { AreReadOn S.Store self.old self.new }
        ensures all { IsHonest (state_of S.Store self.new) → AreKept S.Store self.old → OnOk result (OffersAll (OrSkips (MaySkip (world_of S.Store self.old) account) T.takes) taker.old (unsent (world_of S.Store self.old) from) taker.new) }
        ensures some { IsHonest (state_of S.Store self.new) → AreKept S.Store self.old → OnErr result (OffersSome (OrSkips (MaySkip (world_of S.Store self.old) account) T.takes) taker.old (unsent (world_of S.Store self.old) from) taker.new) }
        ensures noted { IsHonest (state_of S.Store self.new) → AreKept S.Store self.old
            → All (IsUnitOf (world_of S.Store self.old)) noted.old.items → All (IsUnitOf (world_of S.Store self.old)) noted.new.items }
    {
        let mut window = self.cache.take_window();
        let mut noting = Noting { taker, noted };
        let offering = Offering {
            apps: self.apps.as_slice(),
            known: &self.cache,
            skip: self.cache.skip_of(account),
        };
        let offered = offering.unsent_from(
            self.alloc,
            &mut self.conn,
            &mut window,
            from,
            &mut noting,
        );
        self.cache.remember_window(window);
        offered
    }

    /// Offers what waits from this place on, and remembers the workunits of the first offers. If an account is named, it
    /// leaves out what the skip of its user covers.
    pub(crate) fn offer_and_note<T: Taker>(
        &mut self,
        account: Option<u32>,
        from: Place,
        taker: &mut T,
    ) -> Result<(), Unavailable>
        ensures reads { AreReadOn S.Store self.old self.new }
        ensures all { IsHonest (state_of S.Store self.new) → AreKept S.Store self.old → OnOk result (OffersAll (OrSkips (MaySkip (world_of S.Store self.old) account) T.takes) taker.old (unsent (world_of S.Store self.old) from) taker.new) }
        ensures some { IsHonest (state_of S.Store self.new) → AreKept S.Store self.old → OnErr result (OffersSome (OrSkips (MaySkip (world_of S.Store self.old) account) T.takes) taker.old (unsent (world_of S.Store self.old) from) taker.new) }
    {
        let mut noted = Vec::new(self.alloc);
        let offered = self.offer_from(account, from, taker, &mut noted);
        self.cache.remember_units(noted.as_slice());
        offered
    }

    /// Remembers the skip of the user of an account.
    pub(crate) fn remember_had(&mut self, account: u32, skip: Place)
        ensures honest { IsHonest (state_of S.Store self.new) → IsHonest (state_of S.Store self.old) }
        ensures reads { (begun : Tables S) → AreReadOn S.Store begun self.old
            → (IsHonest (state_of S.Store self.new) → AreKept S.Store begun → HadAllBefore (world_of S.Store begun) account skip) → AreReadOn S.Store begun self.new }
    {
        self.cache.remember_had(self.alloc, account, skip);
    }
}
