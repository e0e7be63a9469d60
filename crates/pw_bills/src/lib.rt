//! Questions to a book on the time between two instants: what an account uses, pays and is topped
//! up in it.
#![tactic(auto)]

mod billed;
mod billing;
mod energies;
mod gathering;
mod payments;
mod pieces;
mod points;
mod readings;
mod reasons;
mod shelf_calls;
mod stretches;

pub use billed::Bill;
pub use billing::bill;
pub use energies::{Energies, days, energy_between};
pub use payments::{TopUpRow, top_ups_between};
pub use pw_book::{Book, BookFault, Reference};
pub use pw_tariff::{AccountId, BandId, Direction, PeriodId};
pub use pw_time::Instant;
pub use readings::{LastReading, read_up_to};
pub use reasons::{WhyPiece, why};
