//! A request that isn't let in, whose body is a request. (Who is let in is shown by the program itself.)

use super::books::{is_replied, is_served};
use crate::new_books::holds_in_memory;
use pw_book::Book;
use pw_http::Audience;
use pw_shelf::Shelf;
use std::alloc::Global;

const NOT_FOR_THIS_SERVER: &[u8] =
    b"HTTP/1.1 403 Forbidden\r\nContent-Type: text/plain\r\nContent-Length: 20\r\nConnection: close\r\n\r\nnot for this server\n";

// A payment of another page, whose body is a payment too.
const PAID_TWICE: &[u8] =
    b"POST /topups HTTP/1.1\r\nHost: other.example\r\nContent-Length: 109\r\n\r\nPOST /topups HTTP/1.1\r\nContent-Length: 64\r\n\r\nreference,account,cents,instant\nP1,A1,5000,2024-01-01T00:00:00Z\n";

const STATEMENT: &[u8] = b"GET /accounts/A1 HTTP/1.1\r\n\r\n";

const NOTHING_PAID: &[u8] =
    b"HTTP/1.1 200 OK\r\nContent-Type: text/plain\r\nContent-Length: 158\r\n\r\naccount A1\nband       import Wh       export Wh\nL                  0               0\nH                  0               0\ntopped up EUR 0.00\nbalance EUR 0.00\n";

// Whether a refused request is the end of a conversation, and its body is no request.
fn is_nothing_paid<S: Shelf>(alloc: Global, book: &mut Book<S>) -> bool {
    is_replied(
        alloc,
        book,
        Audience::Here(&[]),
        PAID_TWICE,
        NOT_FOR_THIS_SERVER,
    ) && is_served(alloc, book, STATEMENT, 1, NOTHING_PAID)
}

// bears on: pw_http books.rt converse_with talk
// bears on: pw_http books.rt converse_with headline
#[test]
fn request_in_a_body(rt: HostRuntime) {
    let alloc = rt.alloc();
    assert!(rt; holds_in_memory(alloc, |book| is_nothing_paid(alloc, book)));
}
