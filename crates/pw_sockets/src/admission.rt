//! Whether clients are accepted: those that knock at once, the next behind an event or a pause, or no more.

ghost use Rattle.std.specs.Prelude.{◌≡◌, ◌≢◌, ◌↔◌, IfSome, IsSome};
ghost use Rattle.std.specs.Time.{instant_nanos};
ghost use Rattle.std.specs.Duration.{as_nanos};
ghost use Rattle.pw_sockets.specs.Limits.{left_of as what_is_left};
ghost use Rattle.pw_sockets.specs.inner.Doors.{IsPaused, pause};
ghost use Rattle.pw_sockets.specs.declared.admission.Door.TheVariants.{Open, Quiet, Paused, Shut};

use crate::accepting::PAUSE;
use crate::limits::left_of;
use std::time::{Duration, Instant};

// Whether clients are accepted.
#[derive(Clone, Copy, Debug, PartialEq, Eq)]
pub(crate) enum Door {
    /// One may be there.
    Open,
    /// None is there: an event tells of the next.
    Quiet,
    /// No descriptor or memory was free for one then: there is another try behind a pause.
    Paused(Instant),
    /// No more are accepted.
    Shut,
}

impl Door {
    // An event told of a client.
    pub(crate) fn knocked(self) -> Door
        ensures opens { self ≡ Quiet → result ≡ Open }
        ensures same { self ≢ Quiet → result ≡ self }
    {
        match self {
            Door::Quiet => Door::Open,
            Door::Open | Door::Paused(_) | Door::Shut => self,
        }
    }

    // How long it is until the next try, where it is paused.
    pub(crate) fn pause_left(self, now: Instant) -> Option<Duration>
        ensures paused { (since : Instant) → self ≡ Paused since
            → IfSome result (λ left. as_nanos left
            ≡ what_is_left pause (instant_nanos since) (instant_nanos now)) }
        ensures some { IsSome result ↔ IsPaused self }
    {
        match self {
            Door::Paused(since) => Some(left_of(Duration::from_millis(PAUSE), since, now)),
            Door::Open | Door::Quiet | Door::Shut => None,
        }
    }

    // The pause is over, if its time is.
    pub(crate) fn resumed(self, now: Instant) -> Door
        ensures same { (IsPaused self → ⊥) → result ≡ self }
    {
        match self.pause_left(now) {
            Some(left) if left.is_zero() => Door::Open,
            _ => self,
        }
    }

    // No more are accepted than those that are there.
    pub(crate) fn closing(self) -> Door
        ensures open { self ≡ Open → result ≡ Open }
        ensures shut { self ≢ Open → result ≡ Shut }
    {
        match self {
            Door::Open => Door::Open,
            Door::Quiet | Door::Paused(_) | Door::Shut => Door::Shut,
        }
    }
}
