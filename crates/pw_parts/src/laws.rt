//! The laws of the definitions.
//!
//! Each function does nothing. What counts is its contract, a law of the definitions in `specs/`, which is proved for
//! all sets of records.

ghost use Rattle.pw_parts.specs.Laws.{PartsAreAtMostOne, TrueExactlyWhereTold};

/// A set of records has at most one list of points, one of starts and one of totals, in whatever order its records are
/// listed, and however often.
pub fn parts_are_at_most_one()
    ensures { PartsAreAtMostOne }
{}

/// What a shelf keeps beside its records is true exactly where its points, starts and totals above 0 are those that the
/// parts of its records list.
pub fn true_exactly_where_told()
    ensures { TrueExactlyWhereTold }
{}
