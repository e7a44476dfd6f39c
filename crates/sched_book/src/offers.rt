//! Offers to a taker, one candidate at a time.

ghost use Rattle.std.specs.Prelude.{◌≡◌, ◌≤◌, ◌&&◌, not, is_none, All, length, IfOk, OnOk, OnErr};
ghost use Rattle.sched_book.specs.Limits.{most_instances, most_workunits};
ghost use Rattle.sched_book.specs.Places.{is_before};
ghost use Rattle.sched_book.specs.Offers.{unsent, unsent_in, OffersAll, OffersSome, Offered, OfferedSome};
ghost use Rattle.sched_book.specs.declared.instance.UnitBook.{UnitBook};

use crate::count::book_status;
use crate::desk::{Candidate, Flow, Taker};
use crate::instance::{Instance, Place, UnitBook};
use crate::world::World;
use texts::Memory;

/// Whether an instance is to be offered, if the offers begin at `from`.
fn is_offered(from: Place, place: Place, instance: &Instance) -> bool
    ensures { result ≡ (is_none instance.now.owner && not (is_before place from)) }
{
    instance.owner.is_none() && from <= place
}

/// Offers the candidates of one workunit, and returns whether the taker wants more.
fn offer_unit<T: Taker>(
    taker: &mut T,
    from: Place,
    unit: u32,
    book: &UnitBook,
) -> Result<Flow, Memory>
    requires { length book.now.instances ≤ most_instances }
    ensures ok { IfOk result (Offered T.takes taker.old (unsent_in from unit book.now.unit 0 book.now.instances) taker.new) }
    ensures err { OnErr result (OfferedSome T.takes taker.old (unsent_in from unit book.now.unit 0 book.now.instances) taker.new) }
{
    let mut candidate = Candidate {
        place: Place { unit, number: 0 },
        unit: book.unit.clone()?,
    };
    for (number, instance) in book.instances.as_slice().iter().enumerate() {
        candidate.place = Place {
            unit,
            number: number as u32,
        };
        if is_offered(from, candidate.place, instance) {
            match taker.offer(&candidate) {
                Flow::GoOn => {}
                Flow::Stop => return Ok(Flow::Stop),
            }
        }
    }
    Ok(Flow::GoOn)
}

/// Offers all candidates from a place on.
pub(crate) fn offer_all<T: Taker>(world: &World, from: Place, taker: &mut T) -> Result<(), Memory>
    requires units { length world.now.units ≤ most_workunits }
    requires instances { All (λ (b : UnitBook). length b.instances ≤ most_instances) world.now.units }
    ensures all { OnOk result (OffersAll T.takes taker.old (unsent world.now from) taker.new) }
    ensures some { OnErr result (OffersSome T.takes taker.old (unsent world.now from) taker.new) }
{
    for (index, book) in world.units.as_slice().iter().enumerate() {
        if book_status(world.apps.as_slice(), book).is_open() {
            match offer_unit(taker, from, index as u32 + 1, book)? {
                Flow::GoOn => {}
                Flow::Stop => return Ok(()),
            }
        }
    }
    Ok(())
}
