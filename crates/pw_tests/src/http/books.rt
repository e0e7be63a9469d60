//! Conversations with a book over a store in memory.

use pw_book::Book;
use pw_http::{Audience, Served, converse, converse_with};
use pw_shelf::Shelf;
use std::alloc::Global;

// Whether a book serves one request of a stream to an audience, and replies this.
pub(super) fn is_replied<S: Shelf>(
    alloc: Global,
    book: &mut Book<S>,
    audience: Audience,
    stream: &[u8],
    expected: &[u8],
) -> bool {
    let mut reader = stream;
    let mut text = Vec::new(alloc);
    let served = converse_with(alloc, book, audience, &mut reader, &mut text);
    served == Ok(Served { requests: 1 }) && text.as_slice() == expected
}

// Whether a book serves so many requests of a stream, and replies this.
pub(super) fn is_served<S: Shelf>(
    alloc: Global,
    book: &mut Book<S>,
    stream: &[u8],
    requests: u64,
    expected: &[u8],
) -> bool {
    let mut reader = stream;
    let mut text = Vec::new(alloc);
    let served = converse(alloc, book, &mut reader, &mut text);
    served == Ok(Served { requests }) && text.as_slice() == expected
}
