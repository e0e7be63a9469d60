//! Which connections were waited for too long, and how long it is until one is.

use super::{MOST_PARTINGS, Sockets};
use crate::alarm::Alarm;
use crate::client::{HURRY, shorter};
use crate::limits::{PATIENCE, left_of};
use crate::observer::Told;
use std::time::{Duration, Instant};

impl<T: Told> Sockets<'_, T> {
    // The connection that was waited for too long, if there is one: it isn't waited for where it has its turn soon.
    fn late_client(&self) -> Option<u64> {
        for (number, client) in self.clients.iter() {
            if !client.held
                && client.left(self.closing, self.now).is_zero()
                && !self.queue.has(*number)
            {
                return Some(*number);
            }
        }
        None
    }

    // An ended connection whose client was read for long enough, if there is one.
    fn late_parting(&self) -> Option<u64> {
        for (number, parting) in self.partings.iter() {
            if parting.left(self.now).is_zero() {
                return Some(*number);
            }
        }
        None
    }

    // How long it is until one is waited for too long.
    fn least_left(&self) -> Duration {
        let mut least = Duration::from_secs(PATIENCE);
        for client in self.clients.values() {
            if !client.held {
                least = shorter(least, client.left(self.closing, self.now));
            }
        }
        for parting in self.partings.values() {
            least = shorter(least, parting.left(self.now));
        }
        least
    }

    // A client that was waited for too long; if there is none, the clock is asked again when there may be one.
    pub(super) fn expired(&mut self) -> Option<u64> {
        let now = self.tick();
        if let Some(number) = self.late_client() {
            self.judge(number, now);
            return Some(number);
        }
        self.let_go();
        self.late = false;
        self.alarm = Alarm::after(self.least_left(), now);
        None
    }

    // Closes the ended connections whose clients were read for long enough.
    fn let_go(&mut self) {
        for _ in 0..MOST_PARTINGS {
            let Some(number) = self.late_parting() else {
                return;
            };
            let _ = self.partings.remove(&number);
        }
    }

    // Whether a client that isn't waited for any more was too long within its own limits; where the server ends, it is no
    // fault of its own, and it still gets the last reply.
    fn judge(&mut self, number: u64, now: Instant) {
        if let Some(client) = self.clients.get_mut(&number) {
            if client.own_left(now).is_zero() {
                client.failed = true;
                self.told.broke(client.awaits());
            }
        }
    }

    // Whether the server began to end, and accepts no more.
    pub(super) fn hurry_is_over(&self, now: Instant) -> bool {
        match self.closing {
            Some(begun) => left_of(Duration::from_millis(HURRY), begun, now).is_zero(),
            None => false,
        }
    }
}
