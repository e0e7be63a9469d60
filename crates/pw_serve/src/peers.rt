//! The connections that are served, by their numbers.

ghost use Rattle.std.specs.Prelude.{◌≡◌, ◌≢◌, ◌≤◌, ◌<◌, ◌+◌, ℕ, Some, None, true, false};
ghost use Rattle.std.specs.BTreeMap.{btree_map_len, get};
ghost use Rattle.std.specs.Ordering.{nat_cmp};
ghost use Rattle.pw_serve.specs.Connections.{AllStay, IsEnded};
ghost use Rattle.pw_serve.specs.inner.Now.{HaveLooked, IsSet, IsVisit, KeepOnward, RestsAt, StillHaveLooked};
ghost use Rattle.pw_serve.specs.inner.Peers.{IsIdle};
ghost use Rattle.pw_serve.specs.inner.Turns.{LeavesOthers};

use crate::connections::{Connections, Ending};
use crate::peer::{LARGE, Peer};
use crate::service::Service;
use crate::turn::{Next, turn};
use std::alloc::Global;
use std::collections::{BTreeMap, VecDeque};

/// The most connections at once.
pub const MOST_CONNECTIONS: usize = 256;

// The connections that are served.
#[derive(Drop)]
pub(crate) struct Peers {
    pub(crate) rows: BTreeMap<u64, Peer>,
    /// Those whose large reply waits until it may be made.
    held: VecDeque<u64>,
    /// The one that may make a large reply, or has made it.
    place: Option<u64>,
    /// The number of the next one.
    pub(crate) next: u64,
    /// How many turns there were.
    turns: u64,
}

// The turn of a connection, if it is served.
fn visit_row<S: Service, C: Connections>(
    alloc: Global,
    service: &mut S,
    connections: &mut C,
    number: u64,
    rows: &mut BTreeMap<u64, Peer>,
    may_be_large: bool,
    turns: u64,
) -> Next
    ensures visit { IsVisit S.answers number service.old (C.connection connections.old)
        (get nat_cmp rows.old) service.new (C.connection connections.new) (get nat_cmp rows.new)
        result }
    ensures looked { StillHaveLooked S.waits rows.old rows.new }
    ensures rests { HaveLooked S.waits (get nat_cmp rows.old)
        → RestsAt S.waits result (get nat_cmp rows.new) number }
    ensures bounded { S.calls service.new + C.moves connections.new
        ≤ S.calls service.old + C.moves connections.old + 16 }
{
    match rows.get_mut(&number) {
        Some(peer) => turn(
            alloc,
            service,
            connections,
            number,
            peer,
            may_be_large,
            turns,
        ),
        None => Next::Waits,
    }
}

// Ends a connection, and gives its memory back.
fn end_row<C: Connections>(
    connections: &mut C,
    number: u64,
    why: Ending,
    rows: &mut BTreeMap<u64, Peer>,
)
    ensures rows { IsSet number None (get nat_cmp rows.old) (get nat_cmp rows.new) }
    ensures one { IsEnded why (C.connection connections.old number)
        (C.connection connections.new number) }
    ensures others { LeavesOthers C.connection number connections.old connections.new }
    ensures bounded { C.moves connections.new ≤ C.moves connections.old }
{
    let _ = rows.remove(&number);
    connections.end(number, why);
}

// Whether the connection has a large reply.
fn has_large(rows: &BTreeMap<u64, Peer>, number: u64) -> bool {
    match rows.get(&number) {
        Some(peer) => peer.outbox.len() > LARGE,
        None => false,
    }
}

// The connection that has been idle for the longest time.
fn longest_idle(rows: &BTreeMap<u64, Peer>) -> Option<u64> {
    let mut found: Option<(u64, u64)> = None;
    for (number, peer) in rows.iter() {
        if peer.is_idle() {
            found = match found {
                Some((least, since)) if since <= peer.since => Some((least, since)),
                _ => Some((*number, peer.since)),
            };
        }
    }
    match found {
        Some((number, _)) => Some(number),
        None => None,
    }
}

// Whether the connection is served, and idle.
fn is_idle_at(rows: &BTreeMap<u64, Peer>, number: u64) -> bool
    ensures { result ≡ true → (c : Peer) × (get nat_cmp rows.now number ≡ Some c) × IsIdle c }
{
    match rows.get(&number) {
        Some(peer) => peer.is_idle(),
        None => false,
    }
}

impl Peers {
    // No connection is served yet.
    pub(crate) fn new(alloc: Global) -> Peers
        ensures rows { (j : ℕ) → get nat_cmp result.rows j ≡ None }
        ensures next { result.next ≡ 0 }
    {
        Peers {
            rows: BTreeMap::new(alloc),
            held: VecDeque::new(alloc),
            place: None,
            next: 0,
            turns: 0,
        }
    }

    // Ends a connection.
    fn end<C: Connections>(&mut self, connections: &mut C, number: u64, why: Ending)
        ensures rows { IsSet number None (get nat_cmp self.old.rows) (get nat_cmp self.new.rows) }
        ensures next { self.new.next ≡ self.old.next }
        ensures one { IsEnded why (C.connection connections.old number)
            (C.connection connections.new number) }
        ensures others { LeavesOthers C.connection number connections.old connections.new }
        ensures bounded { C.moves connections.new ≤ C.moves connections.old }
    {
        end_row(connections, number, why, &mut self.rows);
    }

    // The turn of a connection, after which it goes on, waits, or is ended.
    fn take_turn<S: Service, C: Connections>(
        &mut self,
        alloc: Global,
        service: &mut S,
        connections: &mut C,
        number: u64,
    )
        ensures onward { KeepOnward S.answers C.connection service.old connections.old self.old
            service.new connections.new self.new }
        ensures looked { StillHaveLooked S.waits self.old.rows self.new.rows }
        ensures bounded { S.calls service.new + C.moves connections.new
            ≤ S.calls service.old + C.moves connections.old + 16 }
    {
        let may_be_large = self.place.is_none() || self.place == Some(number);
        let turns = self.turns;
        let next = visit_row(
            alloc,
            service,
            connections,
            number,
            &mut self.rows,
            may_be_large,
            turns,
        );
        match next {
            Next::Goes | Next::Replied => connections.again(number),
            Next::Waits => {}
            Next::Held => self.hold(connections, number),
            Next::Ends(why) => self.end(connections, number, why),
        }
    }

    // Has a connection wait until it may make a large reply.
    fn hold<C: Connections>(&mut self, connections: &mut C, number: u64)
        ensures rows { self.new.rows ≡ self.old.rows }
        ensures next { self.new.next ≡ self.old.next }
        ensures stay { AllStay (C.connection connections.old) (C.connection connections.new) }
        ensures bounded { C.moves connections.new ≤ C.moves connections.old }
    {
        if !self.is_held(number) && self.held.push_back(number).is_err() {
            // Its next turn tries again.
            connections.again(number);
            return;
        }
        connections.hold(number);
    }

    fn is_held(&self, number: u64) -> bool {
        self.held.iter().any(|other| *other == number)
    }

    // The place of the large reply is kept, given up, or given to the next that waits for it.
    fn pass_place_on<C: Connections>(&mut self, connections: &mut C, number: u64)
        ensures rows { self.new.rows ≡ self.old.rows }
        ensures next { self.new.next ≡ self.old.next }
        ensures stay { AllStay (C.connection connections.old) (C.connection connections.new) }
        ensures bounded { C.moves connections.new ≤ C.moves connections.old }
    {
        if has_large(&self.rows, number) {
            self.place = self.place.or(Some(number));
        } else if self.place == Some(number) {
            self.place = None;
        }
        for _ in 0..self.held.len() {
            if self.place.is_some() {
                return;
            }
            self.call_next(connections);
        }
    }

    // Gives the place to the first that waits for it, if it is still served.
    fn call_next<C: Connections>(&mut self, connections: &mut C)
        ensures rows { self.new.rows ≡ self.old.rows }
        ensures next { self.new.next ≡ self.old.next }
        ensures stay { AllStay (C.connection connections.old) (C.connection connections.new) }
        ensures bounded { C.moves connections.new ≤ C.moves connections.old }
    {
        let Some(number) = self.held.pop_front() else {
            return;
        };
        if self.rows.contains_key(&number) {
            self.place = Some(number);
            connections.again(number);
        }
    }

    // The turn of a connection.
    pub(crate) fn visit<S: Service, C: Connections>(
        &mut self,
        alloc: Global,
        service: &mut S,
        connections: &mut C,
        number: u64,
    )
        ensures onward { KeepOnward S.answers C.connection service.old connections.old self.old
            service.new connections.new self.new }
        ensures looked { StillHaveLooked S.waits self.old.rows self.new.rows }
        ensures bounded { S.calls service.new + C.moves connections.new
            ≤ S.calls service.old + C.moves connections.old + 16 }
    {
        self.turns = self.turns.wrapping_add(1);
        self.take_turn(alloc, service, connections, number);
        self.pass_place_on(connections, number);
    }

    // The client of a connection was waited for too long.
    pub(crate) fn expire<S: Service, C: Connections>(
        &mut self,
        service: &S,
        connections: &mut C,
        number: u64,
    )
        requires { (C.connection connections.old number).broken ≢ Some false }
        ensures onward { KeepOnward S.answers C.connection service.now connections.old self.old
            service.now connections.new self.new }
        ensures looked { StillHaveLooked S.waits self.old.rows self.new.rows }
        ensures bounded { C.moves connections.new ≤ C.moves connections.old }
    {
        let _ = service;
        if self.rows.contains_key(&number) {
            self.end(connections, number, Ending::Broken);
            self.pass_place_on(connections, number);
        }
    }

    // Ends the connection that has been idle for the longest time, if one is idle; tells whether there was one.
    fn displace<S: Service, C: Connections>(&mut self, service: &S, connections: &mut C) -> bool
        ensures onward { KeepOnward S.answers C.connection service.now connections.old self.old
            service.now connections.new self.new }
        ensures looked { StillHaveLooked S.waits self.old.rows self.new.rows }
        ensures bounded { C.moves connections.new ≤ C.moves connections.old }
    {
        let _ = service;
        let Some(number) = longest_idle(&self.rows) else {
            return false;
        };
        if !is_idle_at(&self.rows, number) {
            return false;
        }
        self.end(connections, number, Ending::Displaced);
        true
    }

    // Takes in the client that knocked.
    fn add<S: Service, C: Connections>(&mut self, alloc: Global, service: &S, connections: &mut C)
        ensures onward { KeepOnward S.answers C.connection service.now connections.old self.old
            service.now connections.new self.new }
        ensures looked { StillHaveLooked S.waits self.old.rows self.new.rows }
        ensures others { LeavesOthers C.connection self.old.next connections.old connections.new }
        ensures bounded { C.moves connections.new ≤ C.moves connections.old }
    {
        let _ = service;
        let number = self.next;
        let Some(behind) = number.checked_add(1) else {
            connections.turn_away();
            return;
        };
        if !connections.admit(number) {
            return;
        }
        self.next = behind;
        if self
            .rows
            .insert(number, Peer::new(alloc, self.turns))
            .is_err()
        {
            connections.end(number, Ending::Short);
            return;
        }
        connections.again(number);
    }

    // A client knocked: it is taken in, or turned away where no place is free and none idle.
    pub(crate) fn knock<S: Service, C: Connections>(
        &mut self,
        alloc: Global,
        service: &S,
        connections: &mut C,
    )
        ensures onward { KeepOnward S.answers C.connection service.now connections.old self.old
            service.now connections.new self.new }
        ensures looked { StillHaveLooked S.waits self.old.rows self.new.rows }
        ensures spares { btree_map_len self.old.rows < MOST_CONNECTIONS
            → LeavesOthers C.connection self.old.next connections.old connections.new }
        ensures bounded { C.moves connections.new ≤ C.moves connections.old }
    {
        let has_place = self.rows.len() < MOST_CONNECTIONS || self.displace(service, connections);
        if has_place {
            self.add(alloc, service, connections);
        } else {
            connections.turn_away();
        }
    }
}
