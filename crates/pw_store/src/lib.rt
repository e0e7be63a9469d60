//! The store of records over SQL.
#![tactic(auto)]

mod adopting;
mod asking;
mod calls;
mod changes;
mod connecting;
mod derived;
mod entries;
mod fault;
mod filling;
mod forms;
mod frontier;
mod given;
mod held;
mod judging;
mod keys;
pub mod laws;
mod listings;
mod liveness;
mod meters;
mod office;
mod opening;
mod points;
mod questions;
mod records;
mod row_values;
mod scan;
mod shelf;
mod starts;
mod sums;
mod total_statements;
mod transaction;
mod upload;
mod waiting;
mod watch;

pub use fault::OpenFault;
pub use shelf::SqlShelf;
pub use watch::{Part, Unwatched, Watch};
