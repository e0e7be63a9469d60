//! A conversation that is given few turns. (What is told of streams in pieces, and of those that fail, is shown by the
//! program itself.)

use super::books::is_served;
use crate::new_books::holds_in_memory;
use crate::streams::byte_by_byte;
use pw_book::Book;
use pw_http::{WireFault, converse_within};
use pw_shelf::Shelf;
use std::alloc::Global;

// A payment and a statement.
const PAID: &[u8] =
    b"POST /topups HTTP/1.1\r\nContent-Length: 64\r\n\r\nreference,account,cents,instant\nP1,A1,5000,2024-01-01T00:00:00Z\nGET /accounts/A1 HTTP/1.1\r\n\r\n";

// Whether a conversation of three turns ends with the third, and leaves nothing in the book's way.
fn is_ended_at_third<S: Shelf>(alloc: Global, book: &mut Book<S>) -> bool {
    let mut reader = byte_by_byte(PAID, 10_000);
    let mut text = Vec::new(alloc);
    let served = converse_within(alloc, book, &mut reader, &mut text, 3);
    let is_ended = served == Err(WireFault::TooManyTurns) && text.is_empty() && reader.calls == 3;
    is_ended && is_served(alloc, book, b"", 0, b"")
}

// bears on: pw_http books.rt converse_within memory
// bears on: pw_http books.rt converse_within turns
#[test]
fn too_many_turns(rt: HostRuntime) {
    let alloc = rt.alloc();
    assert!(rt; holds_in_memory(alloc, |book| is_ended_at_third(alloc, book)));
}
