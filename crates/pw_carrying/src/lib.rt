//! The records of a book, carried into the book of another office, and compared with what was sent.
#![tactic(auto)]

mod carrying;
mod fault;
mod held;
mod lists;
mod progress;
mod readings;
mod renamed;
mod sending;
mod waiting;

pub use carrying::carry_into;
pub use fault::CarryFault;
pub use held::unsent;
pub use progress::{Carrying, Untold};
pub use readings::last_reading;
pub use sending::lacking;
