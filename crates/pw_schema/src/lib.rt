//! The tables of a store over SQL: making them, and judging those of a found file and their rows.
#![tactic(auto)]

mod cells;
mod checks;
mod columns;
mod conflicts;
mod empty;
mod indexes;
mod judge;
mod judging;
mod kept;
mod keys;
mod kind;
pub mod laws;
mod make;
mod of_tables;
mod office;
mod raise;
mod reading;
mod records;
mod replacing;
mod rowids;
mod shape;
mod table;
mod tables;
mod total_rows;
mod transactions;
mod values;

pub use cells::{amount_at, instant_at, number_at, owner_at, wh_at};
pub use conflicts::has_no_conflict;
pub use empty::NoRows;
pub use judge::{Judge, JudgeFault};
pub use judging::{record_in, total_in};
pub use kept::{KeptEntries, KeptTotals};
pub use kind::{RecordKind, StoreVersion, TotalKind};
pub use make::create;
pub use office::{OfficeFault, judge_version, keeps_office};
pub use raise::raise_to_third;
pub use reading::{ReadFault, contents_in, entry_of, read_rows};
pub use records::Records;
pub use replacing::set_office;
pub use rowids::Rowids;
pub use shape::{begins_as_ours, is_nothing, is_of};
pub use total_rows::total_of;
pub use transactions::{begin, commit, roll_back};
pub use values::{direction_place, integer, owner_place, wide, words};
