//! The interface of a store of records, and the store in memory.
#![tactic(auto)]

mod calls;
mod count;
mod counted_calls;
mod counter;
mod fault;
mod held;
mod kept;
pub mod laws;
mod lists;
mod memory;
mod plan;
mod points;
mod rows;
mod shelf;
mod starts;
mod table;
mod tally;
mod totals;

pub use count::CountShelf;
pub use fault::ShelfFault;
pub use memory::MemoryShelf;
pub use pw_model::{Contents, TotalKey};
pub use shelf::Shelf;
pub use tally::Tally;
