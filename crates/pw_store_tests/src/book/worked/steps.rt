//! The uploads of the rows that are worked out by hand, each with what the first account imported behind it.

use crate::book::OTHER;
use crate::entries::Sent;
use pw_obis::Register;
use pw_tests::sample::{FIRST, FIVE, METER, NEW_YEAR, SECOND, SEVEN, SIX};

/// An upload, how many of it are fresh and repeated, and what the first account imported behind it, in both bands.
#[derive(Clone, Copy)]
pub struct Step(pub &'static [Sent], pub (u32, u32), pub (u64, u64));

const FRESH: (u32, u32) = (1, 0);

const REPEATED: (u32, u32) = (0, 1);

const OWNER: Sent = Sent::Assignment(METER, NEW_YEAR, Some(FIRST));

// Half of 3,001 Wh, rounded down, is of the low band, and the other half of the high one.
const EARLY: Sent = Sent::Reading(METER, Register::I1, FIVE, 1_000_000);

const LATE: Sent = Sent::Reading(METER, Register::I1, SEVEN, 1_003_001);

const PAYMENT: Sent = Sent::TopUp(b"P1", FIRST, 5_000);

const AT_SIX: Sent = Sent::Reading(METER, Register::I1, SIX, 1_001_000);

const MORE_AT_SIX: Sent = Sent::Reading(METER, Register::I1, SIX, 1_001_200);

const MOST_AT_SIX: Sent = Sent::Reading(METER, Register::I1, SIX, 1_001_500);

const EXPORT_EARLY: Sent = Sent::Reading(METER, Register::E1, FIVE, 1_000_000);

const EXPORT_LATE: Sent = Sent::Reading(METER, Register::E1, SEVEN, 1_003_001);

const BEFORE_FALL: Sent = Sent::Reading(METER, Register::I1, FIVE, 100_000);

const FALLEN: Sent = Sent::Reading(METER, Register::I1, SIX, 50_000);

const RISEN: Sent = Sent::Reading(METER, Register::I1, SEVEN, 120_000);

const UNLIKE_FALLEN: Sent = Sent::Reading(METER, Register::I1, SIX, 60_000);

const BETWEEN: Sent = Sent::Reading(METER, Register::I1, FIVE + 1_800, 110_000);

const TO_SECOND: Sent = Sent::Assignment(METER, FIVE + 1_800, Some(SECOND));

const TO_NOBODY: Sent = Sent::Assignment(METER, FIVE + 1_800, None);

const LATER_TO_SECOND: Sent = Sent::Assignment(METER, SIX + 1_800, Some(SECOND));

const LATER_TO_NOBODY: Sent = Sent::Assignment(METER, SIX + 1_800, None);

const LESS_PAID: Sent = Sent::TopUp(b"P1", FIRST, 2_000);

const MORE_PAID: Sent = Sent::TopUp(b"P1", FIRST, 3_000);

/// A late reading, and two more of its second, which dispute it.
pub const LATE_READINGS: &[Step] = &[
    Step(&[OWNER], FRESH, (0, 0)),
    Step(&[LATE], FRESH, (0, 0)),
    Step(&[EARLY], FRESH, (1_500, 1_501)),
    Step(&[AT_SIX], FRESH, (1_000, 2_001)),
    Step(&[MOST_AT_SIX], FRESH, (1_500, 1_501)),
    Step(&[AT_SIX], REPEATED, (1_500, 1_501)),
    Step(&[MORE_AT_SIX], FRESH, (1_500, 1_501)),
];

/// An owner that is told behind the readings, and a payment that comes again.
pub const OWNER_BEHIND: &[Step] = &[
    Step(&[LATE], FRESH, (0, 0)),
    Step(&[PAYMENT], FRESH, (0, 0)),
    Step(&[EARLY], FRESH, (0, 0)),
    Step(&[OWNER], FRESH, (1_500, 1_501)),
    Step(&[PAYMENT], REPEATED, (1_500, 1_501)),
];

pub const EXPORTED: &[Step] = &[
    Step(&[OWNER], FRESH, (0, 0)),
    Step(&[EXPORT_EARLY], FRESH, (0, 0)),
    Step(&[EXPORT_LATE], FRESH, (0, 0)),
];

/// A fall and the rise behind it.
pub const FALL: &[Step] = &[
    Step(&[OWNER], FRESH, (0, 0)),
    Step(&[BEFORE_FALL], FRESH, (0, 0)),
    Step(&[FALLEN], FRESH, (0, 0)),
    Step(&[RISEN], FRESH, (0, 70_000)),
];

/// Another reading at its end, which settles it.
pub const FALL_DISPUTED: &[Step] = &[
    Step(&[OWNER], FRESH, (0, 0)),
    Step(&[BEFORE_FALL], FRESH, (0, 0)),
    Step(&[FALLEN], FRESH, (0, 0)),
    Step(&[RISEN], FRESH, (0, 70_000)),
    Step(&[UNLIKE_FALLEN], FRESH, (10_000, 10_000)),
];

/// A reading between, and two payments of one reference.
pub const FALL_SETTLED: &[Step] = &[
    Step(&[OWNER], FRESH, (0, 0)),
    Step(&[BEFORE_FALL], FRESH, (0, 0)),
    Step(&[FALLEN], FRESH, (0, 0)),
    Step(&[RISEN], FRESH, (0, 70_000)),
    Step(&[UNLIKE_FALLEN], FRESH, (10_000, 10_000)),
    Step(&[BETWEEN], FRESH, (13_333, 6_667)),
    Step(&[LESS_PAID], FRESH, (13_333, 6_667)),
    Step(&[MORE_PAID], FRESH, (13_333, 6_667)),
];

/// Three falls and five disputes, over both meters and of all kinds, from the last to the first.
pub const LISTS: &[Step] = &[
    Step(
        &[
            Sent::TopUp(b"P1", FIRST, 2),
            Sent::TopUp(b"P1", FIRST, 1),
            Sent::Assignment(OTHER, NEW_YEAR, Some(FIRST)),
            Sent::Assignment(OTHER, NEW_YEAR, None),
            Sent::Assignment(METER, NEW_YEAR, Some(SECOND)),
            OWNER,
        ],
        (6, 0),
        (0, 0),
    ),
    Step(
        &[
            Sent::Reading(OTHER, Register::I1, SEVEN, 2),
            Sent::Reading(OTHER, Register::I1, SEVEN, 1),
            Sent::Reading(OTHER, Register::I1, SIX, 10),
            Sent::Reading(OTHER, Register::I1, FIVE, 20),
        ],
        (4, 0),
        (0, 0),
    ),
    Step(
        &[
            Sent::Reading(METER, Register::E2, SEVEN, 5),
            Sent::Reading(METER, Register::E2, SIX, 6),
        ],
        (2, 0),
        (0, 0),
    ),
    Step(
        &[
            Sent::Reading(METER, Register::I1, SEVEN, 4),
            Sent::Reading(METER, Register::I1, SEVEN, 3),
            Sent::Reading(METER, Register::I1, SIX, 10),
            Sent::Reading(METER, Register::I1, FIVE, 20),
        ],
        (4, 0),
        (0, 0),
    ),
];

pub const OWNER_READINGS_PAYMENT: &[Step] = &[
    Step(&[OWNER], FRESH, (0, 0)),
    Step(&[EARLY, LATE], (2, 0), (1_500, 1_501)),
    Step(&[PAYMENT], FRESH, (1_500, 1_501)),
];

pub const OWNER_PAYMENT_READINGS: &[Step] = &[
    Step(&[OWNER], FRESH, (0, 0)),
    Step(&[PAYMENT], FRESH, (0, 0)),
    Step(&[EARLY, LATE], (2, 0), (1_500, 1_501)),
];

pub const READINGS_OWNER_PAYMENT: &[Step] = &[
    Step(&[EARLY, LATE], (2, 0), (0, 0)),
    Step(&[OWNER], FRESH, (1_500, 1_501)),
    Step(&[PAYMENT], FRESH, (1_500, 1_501)),
];

pub const READINGS_PAYMENT_OWNER: &[Step] = &[
    Step(&[EARLY, LATE], (2, 0), (0, 0)),
    Step(&[PAYMENT], FRESH, (0, 0)),
    Step(&[OWNER], FRESH, (1_500, 1_501)),
];

pub const PAYMENT_OWNER_READINGS: &[Step] = &[
    Step(&[PAYMENT], FRESH, (0, 0)),
    Step(&[OWNER], FRESH, (0, 0)),
    Step(&[EARLY, LATE], (2, 0), (1_500, 1_501)),
];

pub const PAYMENT_READINGS_OWNER: &[Step] = &[
    Step(&[PAYMENT], FRESH, (0, 0)),
    Step(&[EARLY, LATE], (2, 0), (0, 0)),
    Step(&[OWNER], FRESH, (1_500, 1_501)),
];

/// A meter that passes to the second account between two readings.
pub const PASSED_TO_SECOND: &[Step] = &[
    Step(&[OWNER], FRESH, (0, 0)),
    Step(&[PAYMENT], FRESH, (0, 0)),
    Step(&[LATE], FRESH, (0, 0)),
    Step(&[EARLY], FRESH, (1_500, 1_501)),
    Step(&[TO_SECOND], FRESH, (750, 0)),
];

/// A meter that passes to nobody between two readings.
pub const PASSED_TO_NOBODY: &[Step] = &[
    Step(&[OWNER], FRESH, (0, 0)),
    Step(&[PAYMENT], FRESH, (0, 0)),
    Step(&[LATE], FRESH, (0, 0)),
    Step(&[EARLY], FRESH, (1_500, 1_501)),
    Step(&[TO_NOBODY], FRESH, (750, 0)),
];

/// A meter that passes on behind a late reading.
pub const PASSED: &[Step] = &[
    Step(&[OWNER], FRESH, (0, 0)),
    Step(&[LATE], FRESH, (0, 0)),
    Step(&[EARLY], FRESH, (1_500, 1_501)),
    Step(&[AT_SIX], FRESH, (1_000, 2_001)),
    Step(&[LATER_TO_SECOND], FRESH, (1_000, 1_000)),
];

/// In dispute it stays where it was.
pub const PASSED_BACK: &[Step] = &[
    Step(&[OWNER], FRESH, (0, 0)),
    Step(&[LATE], FRESH, (0, 0)),
    Step(&[EARLY], FRESH, (1_500, 1_501)),
    Step(&[AT_SIX], FRESH, (1_000, 2_001)),
    Step(&[LATER_TO_SECOND], FRESH, (1_000, 1_000)),
    Step(&[LATER_TO_NOBODY], FRESH, (1_000, 2_001)),
];

pub const PAID_ONCE: &[Step] = &[
    Step(&[LESS_PAID, LESS_PAID], FRESH, (0, 0)),
    Step(&[LESS_PAID], REPEATED, (0, 0)),
];

/// Two payments of one reference, in either order.
pub const PAID_LESS_FIRST: &[Step] = &[
    Step(&[LESS_PAID], FRESH, (0, 0)),
    Step(&[MORE_PAID], FRESH, (0, 0)),
];

pub const PAID_MORE_FIRST: &[Step] = &[
    Step(&[MORE_PAID], FRESH, (0, 0)),
    Step(&[LESS_PAID], FRESH, (0, 0)),
];

pub const THREE_PAID: &[Step] = &[
    Step(
        &[
            Sent::TopUp(b"P1", FIRST, 1),
            Sent::TopUp(b"P2", FIRST, 2),
            Sent::TopUp(b"P3", FIRST, 3),
        ],
        (3, 0),
        (0, 0),
    ),
    Step(&[Sent::TopUp(b"P2", FIRST, 2)], REPEATED, (0, 0)),
];
