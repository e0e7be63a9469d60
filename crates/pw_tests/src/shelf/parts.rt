//! What an upload changes is seen within it, kept where it is committed, and given back where it is given up.

use super::{
    Answer, BOTH_POINTS, BOTH_STARTS, Call, Change, KEPT, List, PAYMENT, Part, Stage,
    passes_in_memory,
};
use crate::sample::{FIVE, METER, SEVEN, SIX};
use pw_obis::Register;

// Some of each part is taken away in an upload that is given up, and seen as taken away there.
const GIVEN_BACK: [Stage; 4] = [
    KEPT,
    Stage::GivenUp(&[
        Call::Changed(Change::NoPoint(FIVE)),
        Call::Changed(Change::NoPoint(FIVE)),
        Call::Changed(Change::NoStart(SIX)),
        Call::Changed(Change::Total(0)),
        Call::Told(&[
            Answer::Of(Part::Before(SIX, None)),
            Answer::Of(Part::Behind(SIX, None)),
            Answer::Of(Part::Total(0)),
        ]),
    ]),
    Stage::Told(BOTH_POINTS),
    Stage::Told(BOTH_STARTS),
];

// bears on: pw_shelf memory.rt MemoryShelf settled
// bears on: pw_shelf shelf.rt Shelf::abandon left
// bears on: pw_shelf shelf.rt Shelf::begin left
// bears on: pw_shelf shelf.rt Shelf::commit same
// bears on: pw_shelf shelf.rt Shelf::point_put put
// bears on: pw_shelf shelf.rt Shelf::points_between rows
// bears on: pw_shelf shelf.rt Shelf::start_put put
// bears on: pw_shelf shelf.rt Shelf::starts_of asked
// bears on: pw_shelf shelf.rt Shelf::starts_of rows
// bears on: pw_shelf shelf.rt Shelf::total memory
#[test]
fn each_part_kept_and_given_back(rt: HostRuntime) {
    assert!(rt; passes_in_memory(&rt, rt.alloc(), &GIVEN_BACK));
}

// The first point and the first start are taken away, each behind another change of it, and a point that is new.
const TAKEN_AWAY: &[Call] = &[
    Call::Changed(Change::NoPoint(FIVE)),
    Call::Changed(Change::Point(Register::I1, FIVE, 7)),
    Call::Changed(Change::NoPoint(FIVE)),
    Call::Changed(Change::Point(Register::I1, SEVEN, 10)),
    Call::Changed(Change::NoPoint(SEVEN)),
    Call::Changed(Change::Start(FIVE, None)),
    Call::Changed(Change::NoStart(FIVE)),
    Call::Changed(Change::Total(0)),
    Call::Told(LATER),
];

// The second point and the second start alone.
const LATER: &[Answer] = &[
    Answer::Of(Part::Before(FIVE, None)),
    Answer::Of(Part::Behind(FIVE, Some((SIX, 9)))),
    Answer::Of(Part::Before(SIX, None)),
    Answer::Of(Part::Behind(SIX, None)),
    Answer::Of(Part::Between(FIVE, SEVEN, &[(SIX, 9)])),
    Answer::Of(Part::Starts(METER, &[(SIX, None)])),
    Answer::Of(Part::Total(0)),
];

// An upload that takes away is seen within it, and gone behind it where it is given up; and one of nothing leaves all
// as it is.
const REMOVALS: [Stage; 8] = [
    KEPT,
    Stage::GivenUp(TAKEN_AWAY),
    Stage::Told(BOTH_POINTS),
    Stage::Told(BOTH_STARTS),
    Stage::Uploaded(TAKEN_AWAY),
    Stage::Told(LATER),
    Stage::GivenUp(&[]),
    Stage::Told(LATER),
];

// bears on: pw_shelf shelf.rt Shelf::abandon back
// bears on: pw_shelf shelf.rt Shelf::commit same
// bears on: pw_shelf shelf.rt Shelf::point_before row
// bears on: pw_shelf shelf.rt Shelf::point_del deleted
// bears on: pw_shelf shelf.rt Shelf::point_del memory
// bears on: pw_shelf shelf.rt Shelf::points_between rows
// bears on: pw_shelf shelf.rt Shelf::start_del deleted
// bears on: pw_shelf shelf.rt Shelf::start_del memory
#[test]
fn removals_hold_where_they_are_committed(rt: HostRuntime) {
    assert!(rt; passes_in_memory(&rt, rt.alloc(), &REMOVALS));
}

// A record added is told by each question within an upload, and isn't there behind it.
const TOLD_WITHIN: [Stage; 2] = [
    Stage::GivenUp(&[
        Call::Added(PAYMENT),
        Call::Told(&[
            Answer::Listed(List::TopUps, &[PAYMENT]),
            Answer::Listed(List::Withdrawals, &[]),
            Answer::Count(1),
            Answer::Held(PAYMENT, true),
        ]),
    ]),
    Stage::Told(&[
        Answer::Count(0),
        Answer::Held(PAYMENT, false),
        Answer::Nothing(PAYMENT),
    ]),
];

// bears on: pw_shelf shelf.rt Shelf::count asked
// bears on: pw_shelf shelf.rt Shelf::topups asked
// bears on: pw_shelf shelf.rt Shelf::withdrawals asked
#[test]
fn questions_within_an_upload(rt: HostRuntime) {
    assert!(rt; passes_in_memory(&rt, rt.alloc(), &TOLD_WITHIN));
}
