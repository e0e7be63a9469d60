//! Another office file for the same records: what it says otherwise, when it may take the old one's place, and what a
//! record is under its names.
#![tactic(auto)]

mod adopting;
mod change;
mod comparing;
pub mod laws;
mod renaming;

pub use adopting::{adopts, is_met, may_be_adopted};
pub use change::{Change, Listed, Respelling};
pub use comparing::changes_between;
pub use renaming::Renaming;
