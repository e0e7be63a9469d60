//! The order of the entries of a body. (What bodies give and for what they are refused stands in `cases/`.)

use crate::entries::{Sent, entries_of};
use crate::sample::{FIVE, METER, sample_office};
use pw_obis::Register;
use pw_record::telegram_records;
use pw_tariff::Office;
use pw_time::Zone;
use std::alloc::Global;
use std::process::Abort;

// Meter 4D31 at 2024-01-02T05:00:00Z: 1,000,001 Wh, and behind it 1,000,000.
const SECOND_THEN_FIRST: &[u8] =
    b"/PWB5X\r\n\r\n0-0:1.0.0(240102060000W)\r\n0-0:96.1.1(4D31)\r\n1-0:1.8.1(001000.001*kWh)\r\n!879D\r\n/PWB5X\r\n\r\n0-0:1.0.0(240102060000W)\r\n0-0:96.1.1(4D31)\r\n1-0:1.8.1(001000.000*kWh)\r\n!1790\r\n";

const IN_ORDER: [Sent; 2] = [
    Sent::Reading(METER, Register::I1, FIVE, 1_000_000),
    Sent::Reading(METER, Register::I1, FIVE, 1_000_001),
];

// Whether the entries of a body of telegrams stand in their order, whatever the order of its frames.
fn are_in_order(rt: &impl Abort, alloc: Global, office: &Office) -> bool {
    let both = entries_of(rt, alloc, &IN_ORDER);
    let zone = Zone::central();
    match telegram_records(alloc, office, &zone, SECOND_THEN_FIRST) {
        Ok(entries) => entries.as_slice() == both.as_slice(),
        Err(_) => false,
    }
}

// bears on: pw_model in_order.rt Distinct::into_entries ensures
#[test]
fn entries_in_order(rt: HostRuntime) {
    let office = sample_office(rt.alloc()).expect(&rt, "an office");
    assert!(rt; are_in_order(&rt, rt.alloc(), &office));
}
