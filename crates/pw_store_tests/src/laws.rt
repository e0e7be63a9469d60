//! The law of a crash over SQL, by a call that meets what it asks.

ghost use Rattle.pw_tariff.specs.Office.{office_of};
ghost use Rattle.pw_tariff.specs.Text.{IsOfficeOf};
ghost use Rattle.pw_model.specs.Office.{AllOfOffice};

use crate::entries::entries_of;
use crate::sql_stores::memory;
use pw_book::Entry;
use pw_book::laws::Sent;
use pw_commands::laws::stores_survive_a_crash;
use pw_tariff::Office;
use pw_tests::offices::SAMPLE;
use pw_tests::sample::{self, FIRST, METER, NEW_YEAR, are_of_office};
use pw_time::Zone;
use sqlite::{Alter, Connection};
use std::alloc::Global;
use std::process::Abort;

// Whether the store over a connection takes an upload, and what stands in another connection opens behind it.
fn is_opened_behind<S: Alter + Drop, T: Alter + Drop>(
    alloc: Global,
    connection: Connection<S>,
    office: Office,
    text: &[u8],
    entries: Vec<Entry>,
    found: Connection<T>,
) -> bool
    requires text { IsOfficeOf text.now office }
    requires of_office { AllOfOffice (office_of office) entries.items }
{
    let mut uploads = [Sent {
        entries,
        answer: None,
    }];
    match stores_survive_a_crash(alloc, connection, office, text, 100, &mut uploads, found) {
        Ok((_, again)) => again.is_ok() && matches!(&uploads[0].answer, Some(Ok(_))),
        Err(_) => false,
    }
}

// bears on: pw_commands laws.rt stores_survive_a_crash entries
#[test]
fn a_store_that_a_crash_left_is_opened(rt: HostRuntime) {
    let alloc = rt.alloc();
    let text = SAMPLE.as_bytes();
    let office = Office::read(alloc, text).expect(&rt, "an office");
    let owner = sample::Sent::Assignment(METER, NEW_YEAR, Some(FIRST));
    let entries = entries_of(&rt, alloc, &[owner]);
    assert!(rt; are_of_office(&office, &Zone::central(), &entries));
    let connection = memory(&rt, alloc);
    let found = memory(&rt, alloc);
    assert!(rt; is_opened_behind(alloc, connection, office, text, entries, found));
}
