//! The laws of requests and conversations.
//!
//! Each function changes nothing. What counts is its contract, a law of the definitions in `specs/`.

ghost use Rattle.pw_http.specs.Headline.{AnswersAreFair, EndTheSame, ManyEndTheSame, ManyHaveHeadlines};
ghost use Rattle.pw_http.specs.Laws.{HasOneReading, PathsReachRoutes, StreamsHaveOneReading};

use crate::audience::Audience;
use crate::heads::MOST_FIELDS;
use crate::requests::{Next, ask_next};
use httparse::spans::EMPTY_HEADER_SPAN;
use pw_book::Book;
use pw_shelf::Shelf;

/// Each stream of bytes has one list of requests, and one end, whoever is let in.
pub fn each_stream_has_one_reading(audience: Audience, stream: &[u8])
    ensures { HasOneReading audience.entry stream.now }
{
    let mut headers = [EMPTY_HEADER_SPAN; MOST_FIELDS];
    let mut at = 0;
    'requests: loop {
        match ask_next(audience, &stream[at..], true, &mut headers) {
            Next::Nothing => return,
            Next::More => return,
            Next::Refused(_) => return,
            Next::Ready(whole) => {
                if whole.closes {
                    return;
                }
                at += whole.len;
            }
        }
    }
}

/// A stream has one list of requests at most, and one end, whatever pieces it comes in.
pub fn streams_have_one_reading()
    ensures { StreamsHaveOneReading }
{}

/// Whatever a book may answer is fair: an upload is answered 400 where its content is refused, and nowhere else, unless
/// want of memory is told in its place; and whatever isn't answered 200 leaves what is held as it was, unless an `abandon`
/// failed. So it is of each step of a run, between the run's own books.
pub fn answers_are_fair<S: Shelf>(book: &Book<S>)
    ensures { AnswersAreFair S.Shelf }
{
    let _ = book.office();
}

/// Order counts nothing, and repetition neither: two conversations, each ended or cut, with books that begin with the
/// same records, in which the same uploads are answered 200, in whatever order and however often, end with the same
/// records and the same answers to every question. (Each book isn't shut at the end, and its store returned what was
/// written.)
pub fn order_counts_nothing<S: Shelf>(book: &Book<S>)
    ensures { EndTheSame S.Shelf }
{
    let _ = book.office();
}

/// What the exchanges of a book with many connections come to, whatever order their requests come in: each is fair, and of a
/// book that isn't shut and over a store that returned what was written each figure behind the last one is the
/// definition's, for the records held before with those of the uploads that were answered 200.
pub fn many_connections_come_to<S: Shelf>(book: &Book<S>)
    ensures { ManyHaveHeadlines S.Shelf }
{
    let _ = book.office();
}

/// Two books that begin with the same records, and accept the same uploads of many connections, in whatever order and
/// however often, end with the same records and the same answers to every question. (Each book isn't shut at the end, and
/// its store returned what was written.)
pub fn many_connections_end_the_same<S: Shelf>(book: &Book<S>)
    ensures { ManyEndTheSame S.Shelf }
{
    let _ = book.office();
}

/// Each route is reached by its path, where the word in braces is any text of one byte or more without a slash; and this
/// text is what the path names.
pub fn paths_reach_routes()
    ensures { PathsReachRoutes }
{}
