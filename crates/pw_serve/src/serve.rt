//! The loop over all connections: each turn takes what comes next, which is a client, an event of one connection or the
//! end, and does what is due then.

ghost use Rattle.std.specs.Prelude.{◌≤◌, ◌+◌, ◌*◌};
ghost use Rattle.pw_serve.specs.Served.{IsServed};
ghost use Rattle.pw_serve.specs.inner.Now.{KeepOnward, StillHaveLooked};

use crate::connections::{Connections, Event};
use crate::peers::Peers;
use crate::service::Service;
use std::alloc::Global;

// Looks at what comes next; tells whether that was the last.
fn turn_once<S: Service, C: Connections>(
    alloc: Global,
    service: &mut S,
    connections: &mut C,
    peers: &mut Peers,
) -> bool
    ensures onward { KeepOnward S.answers C.connection service.old connections.old peers.old
        service.new connections.new peers.new }
    ensures looked { StillHaveLooked S.waits peers.old.rows peers.new.rows }
    ensures bounded { S.calls service.new + C.moves connections.new
        ≤ S.calls service.old + C.moves connections.old + 16 }
{
    match connections.next() {
        Event::Quiet => false,
        Event::Knocked => {
            peers.knock(alloc, service, connections);
            false
        }
        Event::Ready(number) => {
            peers.visit(alloc, service, connections, number);
            false
        }
        Event::Expired(number) => {
            peers.expire(service, connections, number);
            false
        }
        Event::Closing => true,
    }
}

/// Serves connections until none is left and none comes, or for so many turns.
///
/// Up to 256 at once, each known by a number that is never used again. A reply is made where the last one is taken, so
/// a client that doesn't read holds up its own replies alone; replies over 262,144 bytes are made one at a time for
/// all. Requests of one connection are answered in order, those of different ones in the order in which they are whole,
/// one a turn. Where no place is free, the connection that has been idle for the longest time is ended; where none is
/// idle, the new client is turned away, and has no number.
///
/// Whatever order the bytes come in, there is one order of requests and replies: [`IsServed`]. In each turn the service
/// is asked, and bytes are read or written, 16 times at most in all.
pub fn serve_many<S: Service, C: Connections>(
    alloc: Global,
    service: &mut S,
    connections: &mut C,
    turns: u64,
)
    ensures served { IsServed S.answers service.old (C.connection connections.old)
        (C.connection connections.new) service.new }
    ensures bounded { S.calls service.new + C.moves connections.new
        ≤ S.calls service.old + C.moves connections.old + 16 * turns }
{
    let mut peers = Peers::new(alloc);
    for _ in 0..turns {
        if turn_once(alloc, service, connections, &mut peers) {
            return;
        }
    }
}
