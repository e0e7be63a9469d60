//! Books over a store over SQL.

use super::{Books, Failing, Fails, Made};
use crate::sql_stores::{book_on, failing_on};
use pw_store::SqlShelf;
use pw_tariff::OfficeFault;
use pw_tests::offices::TWO_METERS;
use sqlite::{Connection, MemStore};
use std::alloc::Global;
use std::process::Abort;

// Books over a store over SQL, in memory.
pub(super) struct OverSql;

// What was made; else there was no memory for it.
fn or_memory<T, E: Drop>(made: Result<T, E>) -> Result<T, OfficeFault> {
    match made {
        Ok(made) => Ok(made),
        Err(_) => Err(OfficeFault::Memory),
    }
}

impl Books for OverSql {
    type Store = SqlShelf<MemStore>;

    fn empty(&self, rt: &impl Abort, alloc: Global, office: &str, limit: u32) -> Made<Self::Store> {
        assert!(rt; 1 <= limit && limit <= 2_000);
        let connection = or_memory(Connection::open_in_memory(alloc))?;
        or_memory(book_on(alloc, connection, office, limit))
    }

    fn failing(&self, _rt: &impl Abort, alloc: Global, fails: Fails) -> Failing<Self::Store> {
        let connection = or_memory(Connection::open_in_memory(alloc))?;
        or_memory(failing_on(alloc, connection, TWO_METERS, fails.at, fails.of_abandon))
    }
}
