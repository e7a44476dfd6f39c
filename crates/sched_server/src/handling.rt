//! A message, from its bytes to those of its answer.

ghost use Rattle.std.specs.Prelude.{◌≡◌, ℕ, ◌∷◌, true, false, Ok, IfOk, IfErr, List};
ghost use Rattle.http_messages.specs.Deciding.{Asked};
ghost use Rattle.http_messages.specs.Meaning.{Means, IsDetermined, Awaits, Misses, message_seen};
ghost use Rattle.http_responses.specs.Answers.{answer_bytes};
ghost use Rattle.http_responses.specs.declared.answer.Answer as given;
ghost use Rattle.sched_book.specs.Trusted.{Trusted};
ghost use Rattle.stores.specs.Acting.{Acts};
ghost use Rattle.sched_server.specs.Arrivals.{Came, StoreStandsFor};
ghost use Rattle.sched_server.specs.Serving.{ServiceStandsFor};
ghost use Rattle.sched_server.specs.Handled.{is_answered, HandledAs, IsHandled};
ghost use Rattle.sched_server.specs.Views.{store_of, operator_key_of};

use crate::answers::{allowed_by, answer, respond};
use crate::service::Service;
use http_messages::{MessageSoFar, hear, new_router};
use http_responses::Answer;
use http_serving::Handler;
use pasts::AnswerContent as Told;
use sched_book::{Cause, Moment, Unavailable};
use std::alloc::Global;
use stores::Store;
use texts::Memory;

/// The cause of a missing answer.
fn cause_of(told: &Result<Told, Unavailable>) -> Option<Cause> {
    match told {
        Ok(_) => None,
        Err(Unavailable(cause)) => Some(*cause),
    }
}

impl<S: Store + Drop> Service<S> {
    /// Returns the service over a store, with the operator's key of the store's settings. This only reads the store,
    /// which agrees with what it agreed with.
    ///
    /// # Errors
    ///
    /// The store comes back, as it was, if there is no memory.
    pub fn new(alloc: Global, mut store: S) -> Result<Service<S>, S>
        ensures store { IfOk result (λ service. S.reads store (store_of service)) }
        ensures key { IfOk result (λ service. Trusted S.Units store (store_of service) (
            operator_key_of service ≡ (S.world store).settings.operator_key)) }
        ensures stands { (key upgrade_points : List ℕ) (before : List Came) → StoreStandsFor S.Store key upgrade_points before store
            → IfOk result (ServiceStandsFor S.Store key upgrade_points before) }
        ensures reopens { (S.honest store → S.well_kept store) → S.reopens store → IfOk result (λ service. S.reopens (store_of service)) }
        ensures back { IfErr result (S.reads store) }
    {
        let Ok(settings) = store.settings(alloc) else {
            return Err(store);
        };
        match new_router(alloc) {
            Ok(router) => Ok(Service {
                router,
                key: settings.operator_key,
                store,
                cause: None,
            }),
            Err(_) => Err(store),
        }
    }
}

impl<S> Service<S> {
    /// What these bytes mean, as far as they have come.
    fn heard<'b>(&self, bytes: &'b [u8]) -> MessageSoFar<'b>
        ensures meaning { Means (operator_key_of self.now) bytes.entry.now (message_seen result.message) }
        ensures settled { result.missing ≡ 0 → IsDetermined (operator_key_of self.now) bytes.entry.now (message_seen result.message) }
        ensures awaits { Misses (operator_key_of self.now) bytes.entry.now result.missing }
    {
        hear(&self.router, self.key.as_str().as_bytes(), bytes)
    }

    /// The operator's key, which each message of an operator must carry.
    pub fn operator_key(&self) -> &str
        ensures { result.now ≡ operator_key_of self.now }
    {
        self.key.as_str()
    }

    /// Takes the cause of the last answer, if that was unavailable. Nothing else changes. There is none if only memory
    /// for the response was missing.
    pub fn take_cause(&mut self) -> Option<Cause>
        ensures store { store_of self.new ≡ store_of self.old }
        ensures key { operator_key_of self.new ≡ operator_key_of self.old }
    {
        self.cause.take()
    }

    /// Gives the store back.
    pub fn into_tables(self) -> S
        ensures { result ≡ store_of self }
    {
        self.into_store()
    }
}

impl<S: Store> Service<S> {
    /// Whether the store is open. One that a fault of the disk has shut answers nothing more until it is opened again.
    /// This only reads the store, which agrees with what it agreed with.
    ///
    /// # Errors
    ///
    /// [`Memory`] if there is no memory to find out.
    pub fn is_open(&mut self) -> Result<bool, Memory>
        ensures reads { S.reads (store_of self.old) (store_of self.new) }
        ensures open { S.clean (store_of self.new) → result ≡ Ok true → S.honest (store_of self.new) }
        ensures shut { S.clean (store_of self.new) → result ≡ Ok false → ¬ S.honest (store_of self.new) }
        ensures stands { (key upgrade_points : List ℕ) (before : List Came) → StoreStandsFor S.Store key upgrade_points before (store_of self.old)
            → StoreStandsFor S.Store key upgrade_points before (store_of self.new) }
        ensures reopens { (S.honest (store_of self.old) → S.well_kept (store_of self.old)) → S.reopens (store_of self.old) → S.reopens (store_of self.new) }
        ensures key { operator_key_of self.new ≡ operator_key_of self.old }
    {
        self.store.is_open()
    }

    /// Does what a message of these bytes asks for, at this moment, and answers it.
    ///
    /// A call that is first heard is a step of the job machine, and is kept with its reply. An import that is not kept
    /// and has no fault adds its rows, and is kept with its answer. A tick is a step of the machine. A statement is a
    /// read of what is stored. Any other message changes nothing. A repeat of a kept call, one of its host's latest
    /// four, or of a kept import gets the same bytes again. After a commit the answer needs no further memory: if it is
    /// unavailable, nothing was changed, unless a fault of the disk has shut the store. From then on everything is
    /// unavailable until the tables are opened again.
    ///
    /// A stop at any moment leaves a store that agrees with all that was answered, or with that and one message more.
    /// The answer of that one was unavailable, or nobody read it; a repeat gets the same bytes. A store that could be
    /// opened again still can be, as it is and as a stop may leave it.
    pub fn handle(&mut self, alloc: Global, now: Moment, bytes: &[u8]) -> Answer
        ensures acts { Acts S.Store (is_answered result) (IsHandled (operator_key_of self.old) bytes.now now (S.holds (store_of self.old))) (store_of self.old) (store_of self.new) }
        ensures key { operator_key_of self.new ≡ operator_key_of self.old }
        ensures exact { Trusted S.Units (store_of self.old) (store_of self.new) (
            HandledAs (operator_key_of self.old) bytes.now now result (S.holds (store_of self.old)) (S.holds (store_of self.new))) }
        ensures stands { (upgrade_points : List ℕ) (before : List Came) → StoreStandsFor S.Store (operator_key_of self.old) upgrade_points before (store_of self.old) → S.clean (store_of self.new)
            → StoreStandsFor S.Store (operator_key_of self.old) upgrade_points (record { arrival = record { now = now; bytes = bytes.now }; answer = result } ∷ before) (store_of self.new) }
        ensures reopens { (S.honest (store_of self.old) → S.well_kept (store_of self.old)) → S.reopens (store_of self.old) → S.reopens (store_of self.new) }
    {
        let message = self.heard(bytes).message;
        let allowed = allowed_by(&message);
        let told = answer(alloc, &mut self.store, now, message);
        self.cause = cause_of(&told);
        respond(alloc, allowed, told)
    }
}

impl<S: Store> Handler for Service<S> {
    ghost settled = { λ service bytes. (asked : Asked) × IsDetermined (operator_key_of service) bytes asked };

    ghost wanting = { λ service bytes. Awaits (operator_key_of service) bytes };

    ghost handles = { λ old now bytes text new. (answer : given.Answer) × (text ≡ answer_bytes answer)
        × Acts S.Store (is_answered answer) (IsHandled (operator_key_of old) bytes now (S.holds (store_of old))) (store_of old) (store_of new)
        × (operator_key_of new ≡ operator_key_of old)
        × ((S.honest (store_of old) → S.well_kept (store_of old)) → S.reopens (store_of old) → S.reopens (store_of new))
        × Trusted S.Units (store_of old) (store_of new) (HandledAs (operator_key_of old) bytes now answer (S.holds (store_of old)) (S.holds (store_of new))) };

    fn missing(&self, bytes: &[u8]) -> usize {
        self.heard(bytes).missing
    }

    fn handle(&mut self, alloc: Global, now: u64, bytes: &[u8]) -> Answer {
        match Moment::new(now) {
            Some(now) => Service::handle(self, alloc, now, bytes),
            None => {
                self.cause = Some(Cause::Clock);
                Answer::Unavailable
            }
        }
    }
}
