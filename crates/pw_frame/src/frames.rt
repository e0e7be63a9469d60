//! The frames of a body, one after the other, up to its end or the first fault.

ghost use Rattle.std.specs.Prelude.{◌≡◌, ℕ, ◌+◌, ◌*◌, ◌^◌, ◌<◌, ◌≤◌, ◌↔◌, ◌∷◌, ◌++◌, [], List, Bool, true, false, length, slice_index, IsNone, MatchOption, MatchResult, IfSome, IfNone, IfOk, IfErr, IsTrue};
ghost use Rattle.pw_frame.specs.Frame.{FrameText, frame_text};
ghost use Rattle.pw_frame.specs.Body.{PairsBetween, Front, BodyReading, BodyFault, Progress};

use crate::frame::{Frame, FrameFault};
use crate::whole::first_frame;
use std::marker::Model;

/// The most bytes of a body that is taken: 256 KiB.
pub const LONGEST_BODY: usize = 262_144;

/// The frames of a body, in order, up to the first fault.
#[derive(Drop)]
pub struct Frames<'a> {
    body: &'a [u8],
    first: usize,
    place: usize,
    ended: bool,
}

impl<'a> Model for Frames<'a> {
    ghost Value = { Progress };

    ghost view = { λ f. record { body = f.body.now; place = f.place; ended = f.ended } };

    ghost invariant = { λ f. PairsBetween f.body.now 0 f.first × (f.first ≤ f.place) × (f.place ≤ length f.body.now) };
}

impl<'a> Frames<'a> {
    /// The frames of a body.
    pub fn new(body: &'a [u8]) -> Frames<'a>
        ensures body { result.body ≡ body.now }
        ensures front { Front body.now [] result.place }
        ensures open { result.ended ≡ false }
    {
        let first = skip_line_ends(body, 0);
        Frames {
            body,
            first,
            place: first,
            ended: false,
        }
    }

    /// The next frame, `None` at the body's end, or what is wrong. After a fault every later call answers `None`.
    pub fn next_frame(&mut self) -> Option<Result<Frame<'a>, FrameFault>>
        ensures body { self.new.body ≡ self.old.body }
        ensures within { self.new.place ≤ length self.new.body }
        ensures rises { IfSome result (λ answer. IfOk answer
            (λ _. self.old.place < self.new.place)) }
        ensures ended { self.old.ended ≡ true → IsNone result × (self.new ≡ self.old) }
        ensures end { IfNone result (self.new ≡ self.old) }
        ensures stops { IfSome result (λ answer. MatchResult answer (λ _. self.new.ended ≡ false)
            (λ _. self.new.ended ≡ true)) }
        ensures next { self.old.ended ≡ false → (frames : List FrameText)
            → Front self.old.body frames self.old.place →
            MatchOption result
            (BodyReading self.old.body frames × (self.new ≡ self.old))
            (λ answer. MatchResult answer
            (λ frame. Front self.old.body (frames ++ frame_text frame ∷ []) self.new.place
            × (self.new.ended ≡ false))
            (λ fault. BodyFault self.old.body frames fault × (self.new.ended ≡ true))) }
    {
        if self.ended {
            return None;
        }
        if self.first < self.place && self.place == self.body.len() {
            return None;
        }
        match first_frame(&self.body[self.place..], self.place) {
            Ok((frame, size)) => {
                self.place = skip_line_ends(self.body, self.place + size);
                Some(Ok(frame))
            }
            Err(fault) => {
                self.ended = true;
                Some(Err(fault))
            }
        }
    }
}

// The place behind all CR LF pairs that stand at `from`.
fn skip_line_ends(body: &[u8], from: usize) -> usize
    requires { from ≤ length body.now }
    ensures gap { PairsBetween body.now from result }
    ensures within { result ≤ length body.now }
    ensures after { from ≤ result }
{
    let mut at = from;
    while body.len() - at >= 2 && body[at] == b'\r' && body[at + 1] == b'\n' {
        at += 2;
    }
    at
}
