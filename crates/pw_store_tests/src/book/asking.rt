//! The questions to a book, each with what it asks of its caller asserted before.

use pw_book::{Book, BookFault, Entry};
use pw_model::{Dispute, Fall, ReadingRow};
use pw_obis::Register;
use pw_shelf::Shelf;
use pw_tariff::{AccountId, MeterId, PeriodId};
use pw_tests::sample::Kind;
use std::alloc::Global;
use std::process::Abort;

/// What a book answers, or why it doesn't.
pub type Answer<T> = Result<T, BookFault>;

pub fn energy<S: Shelf>(rt: &impl Abort, book: &mut Book<S>, kind: Kind) -> Answer<u64> {
    let (owner, band, direction) = kind;
    if let Some(account) = owner {
        assert!(rt; account.0 < book.office().accounts());
    }
    assert!(rt; band.0 < book.office().bands());
    book.energy(owner, band, direction)
}

pub fn energy_in<S: Shelf>(
    rt: &impl Abort,
    book: &mut Book<S>,
    period: PeriodId,
    kind: Kind,
) -> Answer<u64> {
    let (owner, band, direction) = kind;
    if let Some(account) = owner {
        assert!(rt; account.0 < book.office().accounts());
    }
    assert!(rt; period.0 < book.office().periods());
    assert!(rt; band.0 < book.office().bands());
    book.energy_in(owner, period, band, direction)
}

pub fn topped_up<S: Shelf>(rt: &impl Abort, book: &mut Book<S>, account: AccountId) -> Answer<u64> {
    assert!(rt; account.0 < book.office().accounts());
    book.topped_up(account)
}

pub fn balance<S: Shelf>(rt: &impl Abort, book: &mut Book<S>, account: AccountId) -> Answer<i128> {
    assert!(rt; account.0 < book.office().accounts());
    book.balance(account)
}

pub fn readings<S: Shelf>(
    rt: &impl Abort,
    alloc: Global,
    book: &mut Book<S>,
    meter: MeterId,
    register: Register,
) -> Answer<Vec<ReadingRow>> {
    assert!(rt; meter.0 < book.office().meters());
    book.readings(alloc, meter, register)
}

pub fn falls<S: Shelf>(alloc: Global, book: &mut Book<S>) -> Answer<Vec<Fall>> {
    book.falls(alloc)
}

pub fn disputes<S: Shelf>(alloc: Global, book: &mut Book<S>) -> Answer<Vec<Dispute>> {
    book.disputes(alloc)
}

pub fn withdrawals<S: Shelf>(alloc: Global, book: &mut Book<S>) -> Answer<Vec<Entry>> {
    book.withdrawals(alloc)
}

pub fn count<S: Shelf>(book: &mut Book<S>) -> Answer<u32> {
    book.count()
}
