//! The book: it takes uploads' records, and answers what the records held mean.
#![tactic(auto)]

mod assignments;
mod balances;
mod basis;
mod book;
mod disputes;
mod effect;
mod energies;
mod falls;
mod fault;
mod gathered;
pub mod laws;
mod moving;
mod posting;
mod reading_change;
mod rows;
mod settling;
mod shelf_calls;
mod start_change;
mod starts;
mod upload;
mod withdrawn;

pub use basis::Basis;
pub use book::{Accepted, Book};
pub use fault::{BookFault, PostFault};
pub use posting::not_held;
pub use pw_model::{Content, Dispute, Distinct, Entry, Fall, Key, Named, ReadingRow, Reference};
pub use pw_obis::{Register, WattHours};
pub use pw_parts::{Parts, true_parts};
pub use pw_tariff::{AccountId, BandId, Direction, MeterId, Office, Owner, PeriodId};
pub use pw_time::{Instant, Zone};
pub use start_change::with_neighbours;
pub use starts::Start;
