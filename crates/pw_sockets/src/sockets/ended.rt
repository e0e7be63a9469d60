//! Connections that are ended, and still read for a while, so that their clients get the last reply.

use super::{MOST_PARTINGS, Sockets};
use crate::limits::PARTING;
use crate::observer::Told;
use crate::parting::{Parting, Rest};
use mio::net::TcpStream;
use pw_serve::Event;
use std::time::Duration;

impl<T: Told> Sockets<'_, T> {
    // The turn of a connection: that of an ended one is to be read.
    pub(super) fn turn_of(&mut self, number: u64) -> Event {
        if self.clients.contains_key(&number) {
            return Event::Ready(number);
        }
        let rest = match self.partings.get_mut(&number) {
            Some(parting) => parting.read_off(),
            None => return Event::Quiet,
        };
        match rest {
            Rest::Over => {
                let _ = self.partings.remove(&number);
            }
            Rest::More => self.queue.queue_up(number),
            Rest::Waits => {}
        }
        Event::Quiet
    }

    // Ends a connection so that its client still gets the last reply.
    pub(super) fn part(&mut self, number: u64, stream: TcpStream) {
        let now = self.tick();
        let Some(mut parting) = Parting::begin(stream, now) else {
            return;
        };
        match parting.read_off() {
            Rest::Over => return,
            Rest::More => self.queue.queue_up(number),
            Rest::Waits => {}
        }
        if self.partings.len() >= MOST_PARTINGS {
            self.make_room();
        }
        if self.partings.insert(number, parting).is_ok() {
            self.alarm.hasten(Duration::from_secs(PARTING), now);
        }
    }

    // Lets the connection go whose end began first.
    fn make_room(&mut self) {
        let mut found: Option<(u64, Duration)> = None;
        for (number, parting) in self.partings.iter() {
            let left = parting.left(self.now);
            found = match found {
                Some((first, least)) if least <= left => Some((first, least)),
                _ => Some((*number, left)),
            };
        }
        if let Some((number, _)) = found {
            let _ = self.partings.remove(&number);
        }
    }
}
