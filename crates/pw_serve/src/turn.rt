//! The turn of one connection: in a bounded number of steps what waits is written, one request is answered, and more is
//! read, so that no client holds up the others.

ghost use Rattle.std.specs.Prelude.{◌≡◌, ◌<◌, ◌≤◌, ◌+◌, ℕ, length};
ghost use Rattle.pw_serve.specs.Connections.{Connection};
ghost use Rattle.pw_serve.specs.inner.Peers.{HasLooked, HasTask, KeepsLooked, MayWait};
ghost use Rattle.pw_serve.specs.inner.Turns.{IsAfter, Leads, LeavesOthers, Moves, Rests};
ghost use Rattle.pw_serve.specs.declared.peer.Task.TheVariants.{Answer as AnswerTask, Read as ReadTask};
ghost use Rattle.pw_serve.specs.declared.turn.Next.TheVariants.{Waits as WaitsNext};

use crate::connections::{Connections, Ending, Stop};
use crate::peer::{Peer, Task};
use crate::service::{Answer, SHORT_REPLY, Service};
use std::alloc::Global;

// The most bytes that one read takes.
const ROOM: usize = 16_384;

// The most steps of one turn.
const STEPS: u32 = 16;

// What a step or a turn came to.
#[derive(Clone, Copy, Debug, PartialEq, Eq)]
pub(crate) enum Next {
    /// There may be more to do at once.
    Goes,
    /// A request was answered.
    Replied,
    /// An event tells when there is more to do.
    Waits,
    /// Its reply may be a large one, and waits until that may be made.
    Held,
    /// The connection is to be ended.
    Ends(Ending),
}

// Writes what waits of the reply.
fn write_some<C: Connections>(
    alloc: Global,
    connections: &mut C,
    number: u64,
    peer: &mut Peer,
    turns: u64,
) -> Next
    requires { peer.old.sent < length peer.old.outbox.items }
    ensures moves { Moves (C.connection connections.old number) peer.old
        (IsAfter result (C.connection connections.new number) peer.new) }
    ensures looked { KeepsLooked peer.old peer.new }
    ensures waits { result ≡ WaitsNext → peer.new.sent < length peer.new.outbox.items }
    ensures others { LeavesOthers C.connection number connections.old connections.new }
    ensures bounded { C.moves connections.new ≤ C.moves connections.old + 1 }
{
    match connections.write(number, &peer.outbox[peer.sent..]) {
        Ok(count) => {
            peer.took(alloc, count, turns);
            Next::Goes
        }
        Err(Stop::NotNow) => Next::Waits,
        Err(Stop::Failed) => Next::Ends(Ending::Broken),
    }
}

// Reads, as far as a request may be long.
fn read_some<C: Connections>(
    connections: &mut C,
    number: u64,
    longest: usize,
    peer: &mut Peer,
) -> Next
    requires { HasTask peer.old ReadTask }
    ensures moves { Moves (C.connection connections.old number) peer.old
        (IsAfter result (C.connection connections.new number) peer.new) }
    ensures looked { KeepsLooked peer.old peer.new }
    ensures waits { result ≡ WaitsNext → MayWait peer.new }
    ensures others { LeavesOthers C.connection number connections.old connections.new }
    ensures bounded { C.moves connections.new ≤ C.moves connections.old + 1 }
{
    if longest <= peer.inbox.len() {
        return Next::Ends(Ending::Short);
    }
    let mut bytes = [0u8; ROOM];
    match connections.read(number, &mut bytes) {
        Ok(0) => {
            peer.ended = true;
            Next::Goes
        }
        Ok(count) => match peer.inbox.extend_from_slice(&bytes[..count]) {
            Ok(()) => {
                peer.looked = false;
                Next::Goes
            }
            Err(_) => Next::Ends(Ending::Short),
        },
        Err(Stop::NotNow) => Next::Waits,
        Err(Stop::Failed) => Next::Ends(Ending::Broken),
    }
}

// Answers the first request, if it is wholly there.
fn answer_one<S: Service>(
    alloc: Global,
    service: &mut S,
    peer: &mut Peer,
    may_be_large: bool,
) -> Next
    requires { HasTask peer.old AnswerTask }
    ensures leads { (k : ℕ) (now : Connection)
        → Leads S.answers k service.old now peer.old service.new (IsAfter result now peer.new) }
    ensures looked { HasLooked S.waits peer.old → HasLooked S.waits peer.new }
    ensures rests { Rests S.waits result peer.new }
    ensures bounded { S.calls service.new ≤ S.calls service.old + 1 }
{
    peer.release(alloc);
    if peer.outbox.try_reserve(SHORT_REPLY).is_err() {
        return Next::Ends(Ending::Short);
    }
    match service.answer(
        alloc,
        &peer.inbox,
        peer.ended,
        may_be_large,
        &mut peer.outbox,
    ) {
        Answer::Waits => {
            peer.looked = true;
            Next::Goes
        }
        Answer::Later => Next::Held,
        Answer::Replied(count, closes) => {
            peer.take_front(alloc, count);
            peer.closes = closes;
            Next::Replied
        }
        Answer::Refused => {
            let count = peer.inbox.len();
            peer.take_front(alloc, count);
            peer.closes = true;
            Next::Replied
        }
        Answer::Short => Next::Ends(Ending::Short),
    }
}

// Writes what waits, answers the first request, or reads: one of the three.
fn step<S: Service, C: Connections>(
    alloc: Global,
    service: &mut S,
    connections: &mut C,
    number: u64,
    peer: &mut Peer,
    may_be_large: bool,
    turns: u64,
) -> Next
    ensures leads { Leads S.answers number service.old (C.connection connections.old number)
        peer.old service.new (IsAfter result (C.connection connections.new number) peer.new) }
    ensures looked { HasLooked S.waits peer.old → HasLooked S.waits peer.new }
    ensures rests { HasLooked S.waits peer.old → Rests S.waits result peer.new }
    ensures others { LeavesOthers C.connection number connections.old connections.new }
    ensures bounded { S.calls service.new + C.moves connections.new
        ≤ S.calls service.old + C.moves connections.old + 1 }
{
    match peer.task() {
        Task::Write => write_some(alloc, connections, number, peer, turns),
        Task::End => Next::Ends(Ending::Over),
        Task::Read => read_some(connections, number, S::LONGEST, peer),
        Task::Answer => answer_one(alloc, service, peer, may_be_large),
    }
}

// A turn of one connection: a bounded number of steps, of which one answers a request at most.
pub(crate) fn turn<S: Service, C: Connections>(
    alloc: Global,
    service: &mut S,
    connections: &mut C,
    number: u64,
    peer: &mut Peer,
    may_be_large: bool,
    turns: u64,
) -> Next
    ensures leads { Leads S.answers number service.old (C.connection connections.old number)
        peer.old service.new (IsAfter result (C.connection connections.new number) peer.new) }
    ensures looked { HasLooked S.waits peer.old → HasLooked S.waits peer.new }
    ensures rests { HasLooked S.waits peer.old → Rests S.waits result peer.new }
    ensures others { LeavesOthers C.connection number connections.old connections.new }
    ensures bounded { S.calls service.new + C.moves connections.new
        ≤ S.calls service.old + C.moves connections.old + 16 }
{
    let mut replied = false;
    for _ in 0..STEPS {
        if replied && peer.task() == Task::Answer {
            return Next::Goes;
        }
        match step(
            alloc,
            service,
            connections,
            number,
            peer,
            may_be_large,
            turns,
        ) {
            Next::Goes => {}
            Next::Replied => replied = true,
            Next::Waits => return Next::Waits,
            Next::Held => return Next::Held,
            Next::Ends(why) => return Next::Ends(why),
        }
    }
    Next::Goes
}
