//! The data sets of any block, one after the other, and the refusal behind them.

ghost use Rattle.pw_obis.specs.Block.{HasSets};
ghost use Rattle.pw_obis.specs.Answers.{Answers};

use crate::block::{BlockSets, first_bad_line};
use crate::data_set::Set;
use crate::fault::LineFault;
use std::marker::Model;

/// The data sets of a block, in order (IEC 62056-21, data block).
///
/// A block is lines, each ended by CR LF, of bytes from 20 to 7E hexadecimal. A line is zero or more data
/// sets, a data set an address and one or more values in parentheses; address and value hold no
/// parenthesis, and only the first address of a line may be empty.
#[derive(Drop)]
pub struct Sets<'a> {
    sets: BlockSets<'a>,
    refusal: Option<usize>,
}

impl<'a> Model for Sets<'a> {
    ghost use Rattle.pw_obis.specs.Coming.{Coming};

    ghost Value = { Coming };

    ghost view = { λ s. record { sets = s.sets; refusal = s.refusal } };
}

impl<'a> Sets<'a> {
    /// The data sets of a block.
    pub fn new(block: &'a [u8]) -> Sets<'a>
        ensures { HasSets block.now result.sets result.refusal }
    {
        let refusal = first_bad_line(block);
        let stop = refusal.unwrap_or(block.len());
        Sets {
            sets: BlockSets::up_to(block, stop),
            refusal,
        }
    }

    /// The next set, or `None` at the block's end.
    ///
    /// # Errors
    /// 20 at the first line that isn't in the grammar, behind all sets of the lines before it; none of its
    /// own sets is given. After it, as after the end, every call answers `None`.
    pub fn next_set(&mut self) -> Option<Result<Set<'a>, LineFault>>
        ensures { Answers self.old result self.new }
    {
        if let Some(set) = self.sets.next() {
            return Some(Ok(set));
        }
        let at = self.refusal.take()?;
        Some(Err(LineFault { at }))
    }
}
