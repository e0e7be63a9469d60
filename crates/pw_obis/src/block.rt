//! A block whose lines are all in the grammar, and its data sets, one after the other.

ghost use Rattle.std.specs.Prelude.{◌≡◌, ◌<◌, length, List, None, Some, IfOk, IfErr};
ghost use Rattle.std.specs.Iterator.{at_most};
ghost use Rattle.pw_obis.specs.Answers.{Gives};
ghost use Rattle.pw_obis.specs.Block.{HasSets};
ghost use Rattle.pw_obis.specs.Coming.{AreLinesUpTo, from_place};
ghost use Rattle.pw_obis.specs.Line.{SetText};
ghost use Rattle.pw_obis.specs.inner.Lines.{HasSet, IsNextPlace, Takes};

use crate::address::code;
use crate::data_set::Set;
use crate::fault::LineFault;
use crate::line::{line_end, set_end};
use std::marker::Model;

/// A block whose lines are all in the grammar (IEC 62056-21, data block): none is made but by [`Block::checked`].
#[derive(Drop)]
pub struct Block<'a> {
    bytes: &'a [u8],
}

impl<'a> Model for Block<'a> {
    ghost use Rattle.std.specs.Prelude.{◌≡◌, List, None};
    ghost use Rattle.pw_obis.specs.Line.{SetText};
    ghost use Rattle.pw_obis.specs.Coming.{from_place};

    ghost Value = { List SetText };

    ghost view = { λ block. (from_place block.bytes.now 0).sets };

    ghost invariant = { λ block. (from_place block.bytes.now 0).refusal ≡ None };
}

impl<'a> Block<'a> {
    /// The block of these bytes, each of whose lines is zero or more data sets, ended by CR LF.
    ///
    /// # Errors
    /// 20 at the first line that isn't in the grammar.
    pub fn checked(bytes: &'a [u8]) -> Result<Block<'a>, LineFault>
        ensures block { IfOk result (λ block. HasSets bytes.now block None) }
        ensures fault { IfErr result (λ fault. (sets : List SetText)
            × HasSets bytes.now sets (Some fault.at)) }
    {
        match first_bad_line(bytes) {
            None => Ok(Block { bytes }),
            Some(at) => Err(LineFault { at }),
        }
    }

    /// Its data sets, in order.
    pub fn sets(&self) -> BlockSets<'a>
        ensures { result ≡ self.now }
    {
        BlockSets::up_to(self.bytes, self.bytes.len())
    }
}

/// The data sets of the lines before a place of a block, in order.
#[derive(Drop)]
pub struct BlockSets<'a> {
    block: &'a [u8],
    place: usize,
    stop: usize,
}

impl<'a> Model for BlockSets<'a> {
    ghost use Rattle.std.specs.Prelude.{List};
    ghost use Rattle.pw_obis.specs.Line.{SetText};
    ghost use Rattle.pw_obis.specs.Coming.{AreLinesUpTo, from_place};

    ghost Value = { List SetText };

    ghost view = { λ sets. (from_place sets.block.now sets.place).sets };

    ghost invariant = { λ sets. AreLinesUpTo sets.block.now sets.place sets.stop };
}

impl<'a> BlockSets<'a> {
    // Those of all lines before the block's first bad one, which begins at `stop`, or before its end.
    pub(crate) fn up_to(block: &'a [u8], stop: usize) -> BlockSets<'a>
        requires { AreLinesUpTo block.now 0 stop }
        ensures { result ≡ (from_place block.now 0).sets }
    {
        BlockSets {
            block,
            place: 0,
            stop,
        }
    }
}

impl<'a> Iterator for BlockSets<'a> {
    type Item = Set<'a>;

    ghost next_gives = { λ old set new. Gives old set new };

    ghost remaining = { λ sets. at_most (length sets) };

    fn next(&mut self) -> Option<Set<'a>> {
        let at = next_place(self.block, self.place, self.stop);
        if at < self.stop {
            let (set, place) = take_set(self.block, at);
            self.place = place;
            Some(set)
        } else {
            self.place = at;
            None
        }
    }
}

// Where the first line begins that isn't in the grammar; none where all are.
pub(crate) fn first_bad_line(block: &[u8]) -> Option<usize>
    ensures { result ≡ (from_place block.now 0).refusal }
{
    let mut at = 0;
    while at < block.len() {
        let Some(end) = line_end(block, at) else {
            return Some(at);
        };
        at = end + 2;
    }
    None
}

// The place of the next set: behind the ends of lines, from `place` on; where none is left, that where the lines stop.
fn next_place(block: &[u8], place: usize, stop: usize) -> usize
    requires { AreLinesUpTo block.now place stop }
    ensures { IsNextPlace block.now place stop result }
{
    let mut at = place;
    while at < stop && block[at] == b'\r' {
        at += 2;
    }
    at
}

// The set that stands at a place, and the place behind it.
fn take_set(block: &[u8], place: usize) -> (Set, usize)
    requires inside { place < length block.now }
    requires set { HasSet block.now place }
    ensures { Takes block.now place result.0 result.1 }
{
    let Some((middle, to)) = set_end(block, place) else {
        unreachable!()
    };
    let address = &block[place..middle];
    let set = Set {
        address,
        code: code(address),
        values: &block[middle..to],
    };
    (set, to)
}
