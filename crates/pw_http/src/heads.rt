//! Request heads: whether the bytes read so far begin with a whole one, and where its parts stand.

ghost use Rattle.std.specs.Prelude.{◌≡◌, ◌≤◌, length};
ghost use Rattle.pw_http.specs.Heads.{longest_head, most_fields};
ghost use Rattle.pw_http.specs.inner.Received.{IsOutcome};

use httparse::Status;
use httparse::spans::{HeaderSpan, RequestSpans, parse_request};

/// The longest head, in bytes.
pub const LONGEST_HEAD: usize = 8_192;

/// The most header fields of a head.
pub const MOST_FIELDS: usize = 64;

// What the bytes read so far say of the next request's head.
#[derive(Clone, Copy, Debug)]
pub(crate) enum Outcome {
    /// A head, with the places of its parts.
    Head(RequestSpans),
    /// No head yet, and there is room for more bytes.
    More,
    /// No head can come.
    Bad,
}

// Looks for a head at the front of `buf`, which is at most 8,192 bytes of what is left.
pub(crate) fn look(buf: &[u8], headers: &mut [HeaderSpan]) -> Outcome
    requires room { length headers.old ≡ most_fields }
    requires limit { length buf.now ≤ longest_head }
    ensures outcome { IsOutcome buf.now headers.new result }
    ensures room { length headers.new ≡ most_fields }
{
    match parse_request(buf, headers) {
        Ok(Status::Complete(head)) => Outcome::Head(head),
        Ok(Status::Partial) => {
            if buf.len() < LONGEST_HEAD {
                Outcome::More
            } else {
                Outcome::Bad
            }
        }
        Err(_) => Outcome::Bad,
    }
}
