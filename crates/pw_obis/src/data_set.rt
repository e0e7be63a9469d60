//! A data set of a line, and its first value.

ghost use Rattle.pw_obis.specs.FirstValue.{IsFirstValue};

use crate::reference::Code;
use crate::texts::{behind_mark, find};

/// A data set: an address, its code where it has one, and its values in parentheses, from the first
/// `(` through the last `)` (IEC 62056-21, data message).
#[derive(Clone, Copy, Debug)]
pub struct Set<'a> {
    pub address: &'a [u8],
    pub code: Option<Code>,
    pub values: &'a [u8],
}

/// The first value of a set, without its parentheses: of a set with several values the first counts.
///
/// Each set of a block has one. Where a set made by hand has none, the answer is empty.
pub fn first_value<'a>(set: &Set<'a>) -> &'a [u8]
    ensures { IsFirstValue set.now.values.now result.now }
{
    let values = set.values;
    let Some(inner) = behind_mark(values, b'(') else {
        return &values[..0];
    };
    let close = find(inner, b')');
    if close == inner.len() {
        return &values[..0];
    }
    &inner[..close]
}
