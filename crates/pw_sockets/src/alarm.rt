//! When the clock is to be asked.

ghost use Rattle.std.specs.Prelude.{◌≡◌, ◌≤◌, ◌<◌};
ghost use Rattle.std.specs.Duration.{as_nanos};
ghost use Rattle.std.specs.Time.{instant_nanos};
ghost use Rattle.pw_sockets.specs.Limits.{left_of as what_is_left};

use crate::limits::left_of;
use std::time::{Duration, Instant};

// When the clock is to be asked whether a client was waited for too long: a span from an instant on.
#[derive(Clone, Copy, Debug, PartialEq, Eq)]
pub(crate) struct Alarm {
    since: Instant,
    span: Duration,
}

impl Alarm {
    // So long from now.
    pub(crate) fn after(span: Duration, now: Instant) -> Alarm
        ensures since { result.since ≡ now }
        ensures span { result.span ≡ span }
    {
        Alarm { since: now, span }
    }

    // How long it is until then; nothing once it has passed.
    pub(crate) fn left(&self, now: Instant) -> Duration
        ensures { as_nanos result ≡ what_is_left (as_nanos self.now.span)
            (instant_nanos self.now.since) (instant_nanos now) }
    {
        left_of(self.span, self.since, now)
    }

    // Sets it to so long from now, where it is later.
    pub(crate) fn hasten(&mut self, span: Duration, now: Instant)
        ensures sooner { as_nanos span < what_is_left (as_nanos self.old.span)
            (instant_nanos self.old.since) (instant_nanos now)
            → self.new ≡ record { since = now; span = span } }
        ensures same { what_is_left (as_nanos self.old.span) (instant_nanos self.old.since)
            (instant_nanos now) ≤ as_nanos span → self.new ≡ self.old }
    {
        let sooner = self.left(now).saturating_sub(span);
        if !sooner.is_zero() {
            *self = Alarm::after(span, now);
        }
    }
}
