//! A new store is opened, or records are uploaded to one that holds some, as a file stops at each of its calls.

use super::answers::{Row, Standing, Told};
use super::{
    AT_SIX, BEHIND_READINGS, BOTH_READINGS, BY_THE_PAIR, Case, End, FIRST_OWNER, Image,
    LEFT_BY_THE_PAIR, LONG, PAYMENT_AND_READINGS, SETTLED, SHORT, TOPUP, TWO_READINGS,
    TWO_WITHDRAWALS, Upload, image_of, new_files, stops_at_each,
};
use crate::entries::Sent;
use pw_tests::sample::{FIVE, METER, SECOND, SEVEN, SIX};
use std::alloc::Global;
use std::process::Abort;

// The meter passes to the second account between the two readings.
const MID_PAIR: Upload = &[Sent::Assignment(METER, FIVE + 1_800, Some(SECOND))];

const PAYMENT: [Upload; 2] = [FIRST_OWNER, TOPUP];

const DISPUTED_READINGS: [Upload; 4] = [FIRST_OWNER, TOPUP, TWO_READINGS, AT_SIX];

const READINGS: [Upload; 1] = [TWO_READINGS];

const WITHDRAWALS: [Upload; 1] = [TWO_WITHDRAWALS];

const PASSING_ON: [Upload; 1] = [MID_PAIR];

const NO_ENERGY: [u64; 12] = [0; 12];

const NO_MONEY: (u64, i128) = (0, 0);

const NOTHING: Told = Told {
    records: 0,
    energies: NO_ENERGY,
    first: NO_MONEY,
    second: NO_MONEY,
    readings: &[],
};

const BEHIND_PAYMENT: Told = Told {
    records: 2,
    energies: NO_ENERGY,
    first: (5_000, 50_000_000_000),
    second: NO_MONEY,
    readings: &[],
};

const PASSED_ON: Told = Told {
    records: 5,
    energies: [0, 0, 0, 0, 750, 0, 0, 0, 750, 0, 1_501, 0],
    first: (5_000, 49_850_000_000),
    second: (0, -600_300_000),
    readings: BOTH_READINGS,
};

const THREE_AT_SIX: &[Row] = &[
    (FIVE, 1_000_000, Standing::Counts),
    (SIX, 1_001_000, Standing::Disputed),
    (SIX, 1_001_200, Standing::Disputed),
    (SIX, 1_001_500, Standing::Disputed),
    (SEVEN, 1_003_001, Standing::Counts),
];

// The disputed readings between the two count nothing.
const IN_DISPUTE: Told = Told {
    records: 7,
    energies: BY_THE_PAIR,
    first: LEFT_BY_THE_PAIR,
    second: NO_MONEY,
    readings: THREE_AT_SIX,
};

// A store that held others is told uploads, with a long log and with a short one, and each file stops at each of its calls.
// Nothing was copied from the log before.
fn stops_with_each_log(
    rt: &impl Abort,
    alloc: Global,
    held: &[Upload],
    uploads: &[Upload],
    [before, behind]: [Told; 2],
) {
    let store = image_of(rt, alloc, &new_files(rt, alloc, held, false));
    for (pages, db_end) in [(LONG, End::NoConnection), (SHORT, End::Refused)] {
        let case = Case {
            uploads,
            before,
            behind,
            pages,
        };
        stops_at_each(rt, alloc, &store, &case, true, End::Refused);
        stops_at_each(rt, alloc, &store, &case, false, db_end);
    }
}

#[test]
fn a_new_store_is_empty_wherever_its_opening_stops(rt: HostRuntime) {
    let alloc = rt.alloc();
    let nothing = Image {
        log: Vec::new(alloc),
        db: Vec::new(alloc),
    };
    let case = Case {
        uploads: &[],
        before: NOTHING,
        behind: NOTHING,
        pages: LONG,
    };
    stops_at_each(&rt, alloc, &nothing, &case, true, End::NoStore);
    stops_at_each(&rt, alloc, &nothing, &case, false, End::NoConnection);
}

// bears on: pw_shelf shelf.rt Shelf::commit left
#[test]
fn both_readings_are_there_or_none(rt: HostRuntime) {
    let told = [BEHIND_PAYMENT, BEHIND_READINGS];
    stops_with_each_log(&rt, rt.alloc(), &PAYMENT, &READINGS, told);
}

#[test]
fn a_meter_passes_on_whole_or_not(rt: HostRuntime) {
    let held = &PAYMENT_AND_READINGS;
    stops_with_each_log(
        &rt,
        rt.alloc(),
        held,
        &PASSING_ON,
        [BEHIND_READINGS, PASSED_ON],
    );
}

#[test]
fn two_withdrawals_are_there_or_none(rt: HostRuntime) {
    let told = [IN_DISPUTE, SETTLED];
    stops_with_each_log(&rt, rt.alloc(), &DISPUTED_READINGS, &WITHDRAWALS, told);
}
