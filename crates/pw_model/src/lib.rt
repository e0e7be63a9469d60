//! What a set of records means: what counts in it, and the energies, payments and balances that follow.
#![tactic(auto)]

mod amounts;
mod compare;
mod in_order;
pub mod laws;
mod limits;
mod named;
mod of_office;
pub mod plain;
mod records;
mod reference;
mod registers;

pub use amounts::{left_over, price_of};
pub use compare::{
    compare_entries, compare_keys, compare_totals, is_same_content, is_same_entry, is_same_key,
};
pub use in_order::Distinct;
pub use limits::{MOST_CENTS, MOST_RECORDS, NANO_IN_CENT};
pub use of_office::{has_owner, is_of_office};
pub use records::{Content, Contents, Dispute, Entry, Fall, Key, Named, ReadingRow, TotalKey};
pub use reference::{LONGEST_REFERENCE, Reference};
pub use registers::{direction_of, register_place};
