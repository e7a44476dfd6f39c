//! The moments at which messages arrive.

ghost use Rattle.std.specs.Prelude.{◌≡◌, ◌≤◌, ◌/◌, ℕ};
ghost use Rattle.std.specs.Option.{SomeIff};

use std::marker::Model;

/// The last moment of an arrival. Every deadline is then before the year 10000.
pub const LAST_MOMENT: u64 = 250_000_000_000;

/// The seconds of a day.
pub const DAY: u64 = 86_400;

/// The moment at which a message arrived, in whole seconds since 1970-01-01T00:00:00Z, up to [`LAST_MOMENT`].
#[derive(Clone, Copy, PartialEq, Eq)]
pub struct Moment {
    seconds: u64,
}

impl Model for Moment {
    ghost Value = { ℕ };

    ghost view = { λ m. m.seconds };

    ghost invariant = { λ m. m.seconds ≤ 250000000000 };

    ghost inverse = { λ n. record { seconds = n } };
}

impl Moment {
    /// The moment so many seconds after the beginning of 1970; none if it is past [`LAST_MOMENT`].
    pub fn new(seconds: u64) -> Option<Moment>
        ensures { SomeIff result (seconds ≤ LAST_MOMENT) seconds }
    {
        if seconds <= LAST_MOMENT {
            Some(Moment { seconds })
        } else {
            None
        }
    }

    /// Its seconds since the beginning of 1970.
    pub fn seconds(self) -> u64
        ensures value { result ≡ self }
        ensures range { result ≤ LAST_MOMENT }
    {
        self.seconds
    }

    /// The day of this moment; the first day of 1970 is day 0.
    pub fn day(self) -> u64
        ensures { result ≡ self / DAY }
    {
        self.seconds / DAY
    }
}
