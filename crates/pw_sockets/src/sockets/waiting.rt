//! Waiting until something is ready, or may be late: with it a round begins.

use super::{KNOCKS, LISTENER, Sockets};
use crate::admission::Door;
use crate::client::{Client, shorter};
use crate::input::{INPUT, Input};
use crate::observer::Told;
use crate::parting::Parting;
use pw_serve::Event;
use std::collections::BTreeMap;
use std::time::Duration;

impl<T: Told> Sockets<'_, T> {
    // How long events are waited for.
    fn time_out(&self) -> Duration {
        if !self.queue.is_empty() || self.door == Door::Open || self.input == Input::Plain {
            return Duration::ZERO;
        }
        let left = self.alarm.left(self.now);
        match self.door.pause_left(self.now) {
            Some(pause) => shorter(left, pause),
            None => left,
        }
    }

    // Waits until something is ready, or may be late, and begins a round.
    pub(super) fn wait(&mut self) -> Event {
        self.tick();
        let time_out = self.time_out();
        if self.poll.poll(&mut self.events, Some(time_out)).is_err() {
            self.failed = true;
            return Event::Closing;
        }
        let now = self.tick();
        self.take_events();
        self.read_input();
        self.door = self.door.resumed(now);
        if self.hurry_is_over(now) {
            self.door = Door::Shut;
        }
        self.knocks = KNOCKS;
        self.queue.begin_round();
        self.late = self.alarm.left(now).is_zero();
        Event::Quiet
    }

    fn take_events(&mut self) {
        for event in &self.events {
            let token = event.token();
            if token == LISTENER {
                self.door = self.door.knocked();
            } else if token == INPUT {
                self.input = self.input.told();
            } else if is_awaited(&self.clients, &self.partings, token.0 as u64) {
                self.queue.queue_up(token.0 as u64);
            }
        }
    }

    // Reads what standard input has; behind its end the server ends.
    fn read_input(&mut self) {
        if !self.input.is_due() {
            return;
        }
        self.input = self.input.read(&self.poll, &mut self.rt.stdin());
        if self.input == Input::Unwatched {
            self.close();
        }
    }
}

// Whether an event of a connection is of use.
fn is_awaited(
    clients: &BTreeMap<u64, Client>,
    partings: &BTreeMap<u64, Parting>,
    number: u64,
) -> bool {
    match clients.get(&number) {
        Some(client) => !client.held,
        None => partings.contains_key(&number),
    }
}
