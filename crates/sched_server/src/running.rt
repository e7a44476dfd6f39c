//! Messages one after the other, and what the store agrees with after them.

ghost use Rattle.std.specs.Prelude.{◌≡◌, length, IfOk};
ghost use Rattle.sched_book.specs.Trusted.{Trusted};
ghost use Rattle.sched_server.specs.Arrivals.{ActInTurn};
ghost use Rattle.sched_server.specs.Views.{store_of, operator_key_of};

use crate::arrival::Arrival;
use crate::service::Service;
use http_responses::Answer;
use std::alloc::Global;
use stores::Store;
use texts::Memory;

impl<S: Store> Service<S> {
    /// Handles these arrivals one after the other.
    ///
    /// If the store agrees with some arrivals, it then agrees with those followed by these with their answers. So what
    /// is stored is that of one run of the job machine over the first-heard ones, even if some were lost, repeated or
    /// late. An arrival whose answer is unavailable counts as lost.
    ///
    /// # Errors
    ///
    /// [`Memory`] if there is no room for an answer. Its arrival and those before it have acted.
    pub fn run(&mut self, alloc: Global, arrivals: &[Arrival]) -> Result<Vec<Answer>, Memory>
        ensures clean { S.clean (store_of self.new) → S.clean (store_of self.old) }
        ensures honest { S.honest (store_of self.new) → S.honest (store_of self.old) }
        ensures lasts { S.lasting → S.honest (store_of self.old) → S.honest (store_of self.new) }
        ensures kept { Trusted S.Units (store_of self.old) (store_of self.new) (S.well_kept (store_of self.new)) }
        ensures key { operator_key_of self.new ≡ operator_key_of self.old }
        ensures reopens { (S.honest (store_of self.old) → S.well_kept (store_of self.old)) → S.reopens (store_of self.old) → S.reopens (store_of self.new) }
        ensures count { IfOk result (λ answers. length answers.items ≡ length arrivals.now) }
        ensures acts { ActInTurn S.Store (operator_key_of self.old) arrivals.now (λ answers. IfOk result (λ all. all.items ≡ answers)) (store_of self.old) (store_of self.new) }
    {
        let mut answers = Vec::new(alloc);
        for arrival in arrivals {
            answers.push(self.handle(alloc, arrival.now, arrival.bytes.as_slice()))?;
        }
        Ok(answers)
    }
}
