//! Where a user has nothing new to be offered.

ghost use Rattle.std.specs.Prelude.{◌≡◌, ◌⊎◌, false, IsTrue};
ghost use Rattle.sched_book.specs.Places as book;
ghost use Rattle.sched_book.specs.declared.instance.Place.{Place as BookPlace};
ghost use Rattle.table_desk.specs.Skips.{no_skip, covers, with_came, raised, nearer, first_listed};

use crate::sorted::is_listed;
use sched_book::Place;
use std::alloc::Global;
use std::marker::Model;

/// The most places that a skip lists. At one more, it covers nothing.
const MOST_CAME: usize = 64;

/// A place before which no candidate need be offered, except where an instance came to wait since.
#[derive(Drop)]
pub struct Skip {
    place: Place,
    came: Vec<Place>,
}

impl Model for Skip {
    ghost use Rattle.table_desk.specs.Skips.{SkipPlaces};

    ghost Value = { SkipPlaces };

    ghost view = { λ f. record { place = f.place; came = f.came.items } };
}

/// The later one of two places.
fn later(place: Place, other: Place) -> Place
    ensures no_earlier { book.is_before result place ≡ false }
    ensures than_the_other { book.is_before result other ≡ false }
    ensures one_of_them { (result ≡ place) ⊎ (result ≡ other) }
{
    place.max(other)
}

/// The earlier one of two places, if the second is not before `from`.
fn nearer(from: Place, next: Place, place: Place) -> Place
    ensures { result ≡ nearer from next place }
{
    if from <= place { next.min(place) } else { next }
}

/// The first of these places that is not before `from`, if it is before `until`. If there is none, `until`.
fn first_listed(places: &[Place], from: Place, until: Place) -> Place
    ensures { result ≡ first_listed from until places.now }
{
    let mut next = until;
    for place in places {
        next = nearer(from, next, *place);
    }
    next
}

impl Skip {
    /// A skip that covers nothing.
    pub fn nowhere(alloc: Global) -> Skip
        ensures { result ≡ no_skip }
    {
        Skip {
            place: Place { unit: 0, number: 0 },
            came: Vec::new(alloc),
        }
    }

    /// Whether no candidate at this place need be offered.
    pub fn covers(&self, place: Place) -> bool
        ensures { result ≡ covers self.now place }
    {
        place < self.place && !is_listed(self.came.as_slice(), place)
    }

    /// The first place from this one on that the skip does not cover.
    pub fn next(&self, from: Place) -> Place
        ensures no_earlier { book.is_before result from ≡ false }
        ensures open { covers self.now result ≡ false }
        ensures covered { (p : BookPlace) → book.is_before p from ≡ false → IsTrue (book.is_before p result) → IsTrue (covers self.now p) }
    {
        first_listed(self.came.as_slice(), from, later(from, self.place))
    }

    /// Takes note that an instance came to wait at this place. Without memory for it, the skip covers nothing.
    pub fn add(&mut self, place: Place)
        ensures { (self.new ≡ with_came self.old place) ⊎ (self.new ≡ no_skip) }
    {
        if !self.covers(place) {
            return;
        }
        if MOST_CAME <= self.came.len() || self.came.push(place).is_err() {
            self.clear();
        }
    }

    /// Covers nothing from now on.
    pub fn clear(&mut self)
        ensures { self.new ≡ no_skip }
    {
        self.place = Place { unit: 0, number: 0 };
        self.came.clear();
    }

    /// Takes note that no candidate before this place need be offered.
    pub fn raise(&mut self, place: Place)
        ensures { self.new ≡ raised self.old place }
    {
        if self.place <= place {
            self.place = place;
            self.came.clear();
        }
    }
}
