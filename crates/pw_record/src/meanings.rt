//! What the sets of a frame tell of its meter and its instant.

ghost use Rattle.std.specs.Prelude.{◌≡◌, ◌↔◌, ◌∷◌, ◌++◌, [], List, IsTrue};
ghost use Rattle.pw_obis.specs.Address.{IsCodeOf};
ghost use Rattle.pw_obis.specs.Line.{SetText};
ghost use Rattle.pw_record.specs.Told.{capital as capital_of, capitals, read_as};
ghost use Rattle.pw_record.specs.inner.Told.{AreTelling};
ghost use Rattle.pw_obis.specs.inner.Given.{set_text};

use pw_obis::{Block, Meaning, Set, first_value};

/// What the sets of a block tell.
#[derive(Clone, Copy, Debug)]
pub enum Told<'a> {
    /// No set tells it.
    Nothing,
    /// All sets that tell it tell this.
    One(&'a [u8]),
    /// Two sets tell unlike things.
    Unlike,
}

/// What all sets of a block tell of two things, in one walk over them.
pub fn both_told<'a>(block: &Block<'a>, one: Meaning, other: Meaning) -> (Told<'a>, Told<'a>)
    ensures one { AreTelling one block.now result.0 }
    ensures other { AreTelling other block.now result.1 }
{
    let mut first = Told::Nothing;
    let mut second = Told::Nothing;
    'sets: for set in block.sets() {
        first = with_set(first, one, &set);
        second = with_set(second, other, &set);
    }
    (first, second)
}

// What sets tell with one set more.
fn with_set<'a>(told: Told<'a>, meaning: Meaning, set: &Set<'a>) -> Told<'a>
    requires { IsCodeOf set.now.address.now set.now.code }
    ensures { (sets : List SetText) → AreTelling meaning sets told.entry
        → AreTelling meaning (sets ++ set_text set.now ∷ []) result }
{
    let Some(code) = set.code else {
        return told;
    };
    if !meaning.is_meant_by(&code) {
        return told;
    }
    let value = first_value(set);
    match told {
        Told::Nothing => Told::One(value),
        Told::One(first) => {
            if are_alike(meaning, value, first) {
                Told::One(first)
            } else {
                Told::Unlike
            }
        }
        Told::Unlike => Told::Unlike,
    }
}

// Whether two values are the same; of identifiers, in capitals.
fn are_alike(meaning: Meaning, one: &[u8], other: &[u8]) -> bool
    ensures { IsTrue result ↔ (read_as meaning one.now ≡ read_as meaning other.now) }
{
    match meaning {
        Meaning::Identifier => are_alike_in_capitals(one, other),
        Meaning::Stamp | Meaning::Time | Meaning::Date => one == other,
    }
}

// Whether two identifiers differ at most in whether letters a to f are capitals.
fn are_alike_in_capitals(one: &[u8], other: &[u8]) -> bool
    ensures { IsTrue result ↔ (capitals one.now ≡ capitals other.now) }
{
    if one.len() != other.len() {
        return false;
    }
    for (i, byte) in one.iter().enumerate() {
        if capital(*byte) != capital(other[i]) {
            return false;
        }
    }
    true
}

/// A letter from a to f as its capital, any other byte as it is.
pub fn capital(byte: u8) -> u8
    ensures { result ≡ capital_of byte }
{
    if b'a' <= byte && byte <= b'f' {
        byte - 32
    } else {
        byte
    }
}
