//! The points, starts and totals of a set of records, from the records alone.
#![tactic(auto)]

mod basis;
mod by_second;
mod changes;
mod counting;
mod energies;
pub mod laws;
mod pairs;
mod parts;
mod payments;
mod place;
mod places;

pub use by_second::readings_shown;
pub use changes::{Change, Changes, Side};
pub use counting::{counting_among, same_key_behind};
pub use pairs::{Point, add_pairs};
pub use parts::{Parts, true_parts};
