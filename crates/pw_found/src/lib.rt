//! What stands at the path of a store, and whether a command may open it: what may hold uploads is never written over.
#![tactic(auto)]

mod cause;
mod files;
mod place;
mod verdict;

pub use cause::Cause;
pub use files::{Found, LONGEST_EMPTY_LOG, look};
pub use place::{Place, needs_no_log};
pub use verdict::{Purpose, Refusal, admit, found_by_sizes, refused};
