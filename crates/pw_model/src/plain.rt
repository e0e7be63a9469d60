//! The meaning of a list of records, computed straight from the definitions.
//!
//! The book's bodies are compared with it. It goes over the records in passes, and stands 100,000 of them; energies and
//! balances look at each second by itself, and pass over the records for each, so they are meant for short spans. What
//! is topped up passes over the records for each top-up of the account.

mod alone;
mod balances;
mod dispute_list;
mod energies;
mod fall_list;
mod of_office;
mod payments;
mod points;
mod reading_list;
mod search;
mod standing;
mod terms;

pub use balances::balance;
pub use dispute_list::disputes;
pub use energies::{energy, energy_in};
pub use fall_list::falls;
pub use of_office::{are_of_office, is_entry_of_office};
pub use payments::topped_up;
pub use points::points_of;
pub use reading_list::readings;
pub use search::{contents_at, owner_at};
pub use terms::OfficeTerms;
