//! Instants: the seconds of a hundred years.

ghost use Rattle.std.specs.Prelude.{◌≡◌, ◌↔◌, IsSome, IfSome};
ghost use Rattle.pw_time.specs.Instants.{IsInstant};

use std::marker::Model;

/// The first second that is an instant: 2000-01-01T00:00:00Z.
pub const FIRST_SECOND: u32 = 946_684_800;

/// The last second that is an instant: 2099-12-31T23:59:59Z.
pub const LAST_SECOND: u32 = 4_102_444_799;

/// The second behind the last instant: 2100-01-01T00:00:00Z.
pub const END_SECOND: u32 = 4_102_444_800;

/// A whole second since 1970-01-01T00:00:00Z, from [`FIRST_SECOND`] to [`LAST_SECOND`].
#[derive(Clone, Copy, Debug, PartialEq, Eq, PartialOrd, Ord, Hash)]
pub struct Instant {
    seconds: u32,
}

impl Model for Instant {
    ghost use Rattle.std.specs.Prelude.{ℕ};
    ghost use Rattle.pw_time.specs.Instants.{IsInstant};

    ghost Value = { ℕ };

    ghost view = { λ i. i.seconds };

    ghost invariant = { λ i. IsInstant i.seconds };

    ghost inverse = { λ n. record { seconds = n } };
}

impl Instant {
    /// The instant of that many seconds since 1970-01-01T00:00:00Z, if it is one.
    pub fn of(seconds: u32) -> Option<Instant>
        ensures within { IsSome result ↔ IsInstant seconds }
        ensures value { IfSome result (λ instant. instant ≡ seconds) }
    {
        if FIRST_SECOND <= seconds && seconds <= LAST_SECOND {
            Some(Instant { seconds })
        } else {
            None
        }
    }

    /// Seconds since 1970-01-01T00:00:00Z.
    pub fn seconds(self) -> u32
        ensures value { result ≡ self }
        ensures within { IsInstant result }
    {
        self.seconds
    }
}
