//! How many calls and rows a store that counts them has seen, and what the store inside it then holds.

use super::{
    Answer, BESIDE, BOTH_POINTS, BOTH_STARTS, Call, EARLY, KEPT, LATE, List, NO_OWNER, NO_READING,
    Part, Stage, are_told, passes,
};
use pw_shelf::{CountShelf, MemoryShelf};
use std::alloc::Global;
use std::process::Abort;

// Stages that a store passes, how many calls and rows it has seen behind them, and what the shelf inside it tells.
type Counted = (&'static [Stage], u64, &'static [Answer]);

fn is_counted(rt: &impl Abort, alloc: Global, (stages, seen, told): Counted) -> bool {
    let mut shelf = CountShelf::new(MemoryShelf::new(alloc));
    passes(rt, alloc, &mut shelf, stages)
        && shelf.seen() == seen
        && are_told(rt, alloc, &mut shelf.into_inner(), told)
}

fn are_counted(rt: &impl Abort, alloc: Global, rows: &[Counted]) {
    for row in rows {
        assert!(rt; is_counted(rt, alloc, *row));
    }
}

// Behind nine calls, two calls that find a row, two that don't, a list of two and an empty one. The shelf inside holds
// what was kept.
const POINTS_COUNTED: [Counted; 2] = [
    (&[KEPT], 9, BOTH_STARTS),
    (
        &[KEPT, Stage::Told(BOTH_POINTS)],
        9 + 2 * 2 + 2 + 3 + 1,
        BOTH_STARTS,
    ),
];

// bears on: pw_shelf count.rt CountShelf::new plan
// bears on: pw_shelf count.rt CountShelf::seen ensures
// bears on: pw_shelf shelf.rt Shelf::begin tally
// bears on: pw_shelf shelf.rt Shelf::commit tally
// bears on: pw_shelf shelf.rt Shelf::point_after asked
// bears on: pw_shelf shelf.rt Shelf::point_after memory
// bears on: pw_shelf shelf.rt Shelf::point_after row
// bears on: pw_shelf shelf.rt Shelf::point_before asked
// bears on: pw_shelf shelf.rt Shelf::point_before memory
// bears on: pw_shelf shelf.rt Shelf::point_before row
// bears on: pw_shelf shelf.rt Shelf::point_put memory
// bears on: pw_shelf shelf.rt Shelf::points_between memory
// bears on: pw_shelf shelf.rt Shelf::start_put memory
// bears on: pw_shelf shelf.rt Shelf::starts_of memory
// bears on: pw_shelf shelf.rt Shelf::total_put memory
#[test]
fn calls_and_rows_counted(rt: HostRuntime) {
    are_counted(&rt, rt.alloc(), &POINTS_COUNTED);
}

const TWO_CONTENTS: Stage = Stage::Uploaded(&[Call::Added(EARLY), Call::Added(BESIDE)]);

// Behind eight calls, a call and two rows, and behind them two calls without a row.
const KEYS_COUNTED: [Counted; 3] = [
    (&[TWO_CONTENTS], 8, &[]),
    (
        &[TWO_CONTENTS, Stage::Told(&[Answer::Several(EARLY)])],
        8 + 3,
        &[],
    ),
    (
        &[
            TWO_CONTENTS,
            Stage::Told(&[
                Answer::Several(EARLY),
                Answer::Nothing(LATE),
                Answer::Of(Part::Total(0)),
            ]),
        ],
        8 + 3 + 2,
        &[],
    ),
];

// bears on: pw_shelf shelf.rt Shelf::contents_at asked
// bears on: pw_shelf shelf.rt Shelf::total asked
#[test]
fn rows_at_keys_and_of_totals_counted(rt: HostRuntime) {
    are_counted(&rt, rt.alloc(), &KEYS_COUNTED);
}

const TWO_WITHDRAWALS: Stage = Stage::Uploaded(&[Call::Added(NO_OWNER), Call::Added(NO_READING)]);

// Behind eight calls, a call and a row for each withdrawal.
const LIST_COUNTED: [Counted; 2] = [
    (&[TWO_WITHDRAWALS], 8, &[]),
    (
        &[
            TWO_WITHDRAWALS,
            Stage::Told(&[Answer::Listed(List::Withdrawals, &[NO_READING, NO_OWNER])]),
        ],
        8 + 3,
        &[],
    ),
];

// bears on: pw_shelf shelf.rt Shelf::withdrawals asked
#[test]
fn rows_of_a_list_counted(rt: HostRuntime) {
    are_counted(&rt, rt.alloc(), &LIST_COUNTED);
}
