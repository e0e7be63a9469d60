//! Stores over memory: what is kept, by calls that no upload makes; another office and other versions are refused.
//! (What else is refused when one is opened stands in `tests/stores`.)

ghost use Rattle.std.specs.Prelude.{◌≡◌, IfOk, IsSome, None, false};
ghost use Rattle.pw_tariff.specs.Office.{OfficeFile};
ghost use Rattle.pw_tariff.specs.Text.{IsOfficeOf};

mod no_memory;

use crate::entries::{at, wh};
use crate::sql_stores::{execute, memory};
use pw_model::TotalKey;
use pw_obis::{Register, WattHours};
use pw_shelf::{Shelf, ShelfFault};
use pw_store::laws::closed_is_opened_again;
use pw_store::{OpenFault, SqlShelf};
use pw_tariff::{AccountId, Office};
use pw_tests::offices::{SAMPLE, TWO_METERS};
use pw_tests::sample::METER;
use pw_time::Instant;
use sqlite::{Connection, MemStore};
use std::alloc::Global;
use std::process::Abort;

const PAYMENTS: TotalKey = TotalKey::TopUps {
    account: AccountId(1),
};

// Sees that a text is that of an office.
fn see_office(rt: &impl Abort, alloc: Global, text: &[u8])
    ensures { (office : OfficeFile) × IsOfficeOf text.now office }
{
    let _office = Office::read(alloc, text).expect(rt, "an office");
}

// A connection, opened as a store, or why it isn't, and the connection.
fn opened(
    rt: &impl Abort,
    alloc: Global,
    connection: Connection<MemStore>,
) -> Result<SqlShelf<MemStore>, (OpenFault, Connection<MemStore>)>
    ensures { IfOk result (λ shelf. shelf.begun ≡ false) }
{
    let text = SAMPLE.as_bytes();
    see_office(rt, alloc, text);
    SqlShelf::open(alloc, connection, text)
}

// The store of a connection.
fn shelf_of(rt: &impl Abort, alloc: Global, connection: Connection<MemStore>) -> SqlShelf<MemStore>
    ensures { result.begun ≡ false }
{
    match opened(rt, alloc, connection) {
        Ok(shelf) => shelf,
        Err(_) => panic!(rt; "not opened"),
    }
}

// A store that holds nothing.
fn empty_shelf(rt: &impl Abort, alloc: Global) -> SqlShelf<MemStore>
    ensures { result.begun ≡ false }
{
    shelf_of(rt, alloc, memory(rt, alloc))
}

// Puts a point twice, and answers the last before the next hour.
fn point_put_twice<S: Shelf>(
    rt: &impl Abort,
    shelf: &mut S,
) -> Result<Option<(Instant, WattHours)>, ShelfFault>
    requires { (S.state shelf.old).begun ≡ None }
{
    let early = at(rt, 1_704_067_200);
    shelf.begin()?;
    shelf.point_put(METER, Register::E1, early, wh(rt, 5))?;
    shelf.point_put(METER, Register::E1, early, wh(rt, 6))?;
    shelf.point_before(METER, Register::E1, at(rt, 1_704_070_800))
}

// bears on: pw_shelf shelf.rt Shelf::begin begun
// bears on: pw_shelf shelf.rt Shelf::begin memory
// bears on: pw_shelf shelf.rt Shelf::point_before memory
// bears on: pw_shelf shelf.rt Shelf::point_put memory
// bears on: pw_shelf shelf.rt Shelf::point_put put
// bears on: pw_store shelf.rt SqlShelf now
#[test]
fn a_point_put_again_is_the_last(rt: HostRuntime) {
    let mut shelf = empty_shelf(&rt, rt.alloc());
    let last = (at(&rt, 1_704_067_200), wh(&rt, 6));
    assert!(rt; point_put_twice(&rt, &mut shelf) == Ok(Some(last)));
}

// Puts the point of a second.
fn put<S: Shelf>(
    rt: &impl Abort,
    shelf: &mut S,
    second: u32,
    watt_hours: u64,
) -> Result<(), ShelfFault>
    requires { IsSome (S.state shelf.old).begun }
    ensures { (S.state shelf.new).begun ≡ (S.state shelf.old).begun }
{
    let instant = at(rt, second);
    shelf.point_put(METER, Register::E1, instant, wh(rt, watt_hours))
}

// Whether points are told as they were put, while they wait and once they are written: six, of which two are at one
// second, where four are written at once.
fn six_points_told<S: Shelf>(
    rt: &impl Abort,
    alloc: Global,
    shelf: &mut S,
) -> Result<bool, ShelfFault>
    requires { (S.state shelf.old).begun ≡ None }
{
    let point = |second: u32, watt_hours: u64| (at(rt, second), wh(rt, watt_hours));
    shelf.begin()?;
    put(rt, shelf, 1_704_067_200, 1)?;
    put(rt, shelf, 1_704_067_201, 2)?;
    put(rt, shelf, 1_704_067_202, 3)?;
    put(rt, shelf, 1_704_067_201, 9)?;
    let last = shelf.point_before(METER, Register::E1, at(rt, 1_704_067_203))?;
    let again = shelf.point_before(METER, Register::E1, at(rt, 1_704_067_202))?;
    put(rt, shelf, 1_704_067_203, 4)?;
    put(rt, shelf, 1_704_067_204, 5)?;
    let next = shelf.point_after(METER, Register::E1, at(rt, 1_704_067_203))?;
    let from = at(rt, 1_704_067_201);
    let all = shelf.points_between(alloc, METER, Register::E1, from, at(rt, 1_704_067_203))?;
    shelf.commit()?;
    let kept = shelf.point_before(METER, Register::E1, at(rt, 1_704_070_800))?;
    let told = [
        point(1_704_067_201, 9),
        point(1_704_067_202, 3),
        point(1_704_067_203, 4),
    ];
    Ok(
        last == Some(told[1])
            && again == Some(told[0])
            && next == Some(point(1_704_067_204, 5))
            && all.as_slice() == told.as_slice()
            && kept == next,
    )
}

// bears on: pw_shelf shelf.rt Shelf::commit same
// bears on: pw_shelf shelf.rt Shelf::point_after row
// bears on: pw_shelf shelf.rt Shelf::point_before row
// bears on: pw_shelf shelf.rt Shelf::point_put put
// bears on: pw_shelf shelf.rt Shelf::points_between rows
// bears on: pw_store laws.rt store_is_its_tables idle
#[test]
fn points_that_wait_are_told(rt: HostRuntime) {
    let mut shelf = empty_shelf(&rt, rt.alloc());
    assert!(rt; six_points_told(&rt, rt.alloc(), &mut shelf) == Ok(true));
}

// Whether a store keeps such a total.
fn has_total<S: Shelf>(shelf: &mut S, key: &TotalKey, amount: u64) -> bool {
    shelf.total(key) == Ok(amount)
}

// The store, closed and opened again.
fn reopened(rt: &impl Abort, alloc: Global, shelf: SqlShelf<MemStore>) -> SqlShelf<MemStore> {
    let text = SAMPLE.as_bytes();
    see_office(rt, alloc, text);
    match closed_is_opened_again(alloc, shelf, text) {
        Ok(again) => again,
        Err(_) => panic!(rt; "not opened"),
    }
}

// Puts a total in an upload that stays begun.
fn begun_total<S: Shelf>(shelf: &mut S) -> Result<(), ShelfFault>
    requires { (S.state shelf.old).begun ≡ None }
{
    shelf.begin()?;
    shelf.total_put(&PAYMENTS, 500)
}

// bears on: pw_store laws.rt closed_is_opened_again ensures
// bears on: pw_store laws.rt closed_is_opened_again memory
#[test]
fn an_upload_still_begun_is_gone_when_opened_again(rt: HostRuntime) {
    let mut shelf = empty_shelf(&rt, rt.alloc());
    assert!(rt; begun_total(&mut shelf).is_ok());
    let mut again = reopened(&rt, rt.alloc(), shelf);
    assert!(rt; has_total(&mut again, &PAYMENTS, 0));
}

const NOBODY: TotalKey = TotalKey::TopUps {
    account: AccountId(9),
};

// Puts a total of 0 for an account that the office hasn't, and commits it.
fn committed_total_of_0<S: Shelf>(shelf: &mut S) -> Result<(), ShelfFault>
    requires { (S.state shelf.old).begun ≡ None }
{
    shelf.begin()?;
    shelf.total_put(&NOBODY, 0)?;
    shelf.commit()
}

// bears on: pw_schema judge.rt Judge::take took
// bears on: pw_store connecting.rt SqlShelf::open content
// bears on: pw_store connecting.rt SqlShelf::open_watched content
#[test]
fn a_total_of_0_at_any_key_opens_again(rt: HostRuntime) {
    let mut shelf = empty_shelf(&rt, rt.alloc());
    assert!(rt; committed_total_of_0(&mut shelf).is_ok());
    let mut again = shelf_of(&rt, rt.alloc(), shelf.close());
    assert!(rt; has_total(&mut again, &NOBODY, 0));
}

// Why a new store of the sample office, in which a statement was run, isn't opened for an office, if it isn't.
fn refusal(rt: &impl Abort, alloc: Global, statement: &str, office: &str) -> Option<OpenFault> {
    let mut connection = empty_shelf(rt, alloc).close();
    execute(rt, &mut connection, statement);
    let text = office.as_bytes();
    see_office(rt, alloc, text);
    match SqlShelf::open(alloc, connection, text) {
        Ok(_) => None,
        Err((fault, _)) => Some(fault),
    }
}

// What is done to a new store, the office that it is opened for, and why it is refused. The version is told first.
const REFUSED: [(&str, &str, OpenFault, u8); 6] = [
    (
        "UPDATE office SET version = 3",
        TWO_METERS,
        OpenFault::OfficeDiffers,
        71,
    ),
    (
        "UPDATE office SET body = X'00'",
        SAMPLE,
        OpenFault::OfficeDiffers,
        71,
    ),
    (
        "UPDATE office SET version = 0",
        SAMPLE,
        OpenFault::Version,
        72,
    ),
    (
        "UPDATE office SET version = 4",
        SAMPLE,
        OpenFault::Version,
        72,
    ),
    (
        "UPDATE office SET version = 9",
        SAMPLE,
        OpenFault::Version,
        72,
    ),
    (
        "UPDATE office SET version = 4",
        TWO_METERS,
        OpenFault::Version,
        72,
    ),
];

// bears on: pw_schema office.rt judge_version other
// bears on: pw_schema office.rt keeps_office is
// bears on: pw_store connecting.rt SqlShelf::open cause
// bears on: pw_store connecting.rt SqlShelf::open_watched cause
// bears on: pw_store fault.rt OpenFault::number ensures
#[test]
fn another_office_and_other_versions_are_refused(rt: HostRuntime) {
    for (statement, office, fault, number) in REFUSED {
        let told = refusal(&rt, rt.alloc(), statement, office);
        assert!(rt;
            told == Some(fault) && fault.number() == number,
            "{statement}"
        );
    }
}
