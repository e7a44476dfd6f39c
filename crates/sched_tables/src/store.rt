//! The tables are a store: a desk that keeps calls and imports, with one commit for everything that a message changes.

use crate::tables::Tables;
use reply_register::Kept;
use sched_book::{Delta, Unavailable};
use sqlite::{Alter, Error, ErrorCode};
use std::alloc::{AllocError, Global};
use stores::{Entry, KeptBatch, Kind, Store};
use table_rows::test_open;
use texts::{Listed, Memory};

impl<S: Alter> Store for Tables<S> {
    ghost use Rattle.std.specs.Prelude.{refl};
    ghost use Rattle.sqlite.specs.State.{HasCleanDisk};
    ghost use Rattle.sched_tables.specs.Held.{NeverFails};
    ghost use Rattle.sched_tables.specs.ReadLaws.{was_clean, never_shut, reads_hold};
    ghost use Rattle.sched_tables.specs.Reopening.{Reopens};
    ghost use Rattle.sched_tables.specs.ReopenLaws.{reads_reopen, held_may_stand};
    ghost use Rattle.sched_tables.specs.Stops.{MayBeFound};
    ghost use Rattle.sched_tables.specs.StopLaws.{stays_found, found_is_committed};
    ghost use Rattle.sched_tables.specs.Views.{state_of, held_of};

    ghost holds = { held_of S.Store };

    ghost clean = { λ t. HasCleanDisk (state_of S.Store t) };

    ghost lasting = { NeverFails S.Store };

    ghost may_leave = { λ t. MayBeFound (state_of S.Store t) };

    ghost reopens = { λ t. Reopens (state_of S.Store t) };

    fn kept(&mut self, alloc: Global, host: u32) -> Result<Listed<Kept>, Unavailable> {
        self.calls_kept(alloc, host)
    }

    fn kept_batch(
        &mut self,
        alloc: Global,
        kind: Kind,
        batch: &str,
    ) -> Result<Option<KeptBatch>, Unavailable> {
        self.import_kept(alloc, kind.name(), batch)
    }

    fn is_open(&mut self) -> Result<bool, Memory> {
        match test_open(&mut self.conn) {
            Ok(()) => Ok(true),
            Err(Error::SqliteFailure(ErrorCode::Closed)) => Ok(false),
            Err(_) => Err(AllocError),
        }
    }

    fn commit(&mut self, delta: &Delta, entry: &Entry) -> Result<(), Unavailable> {
        Tables::commit(self, delta, entry)
    }

    ghost world_held = { λ a. refl };

    ghost is_clean = { λ a h. h.0 };

    ghost stays_clean = { λ a b h k. was_clean _ _ h.0 k };

    ghost stays_open = { λ a b l h k. never_shut _ _ _ (l a.conn.store).0 (l b.conn.store).0 (l b.conn.store).1 h.0.survives k };

    ghost stays_held = { λ a b h k l. reads_hold _ _ h.0 k l.0 };

    ghost stays_left = { λ a b h held found. stays_found _ _ held h.0.survives found };

    ghost stays_reopened = { λ a b h k reopens. reads_reopen _ _ h.0 (λ honest. (k honest).0.rests) reopens };

    ghost may_stand = { λ a h k reopens. held_may_stand _ (reopens.now h) };

    ghost settled = { λ a h k l held found. found_is_committed _ _ held k.0 l (λ trees left. S.settled _ trees h.1 left) found };
}
