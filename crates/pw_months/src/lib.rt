//! The bill of an account between two instants, and why it is what it is.
//!
//! The definitions stand in `specs/`; the module `laws` states what holds of them.
#![tactic(auto)]

pub mod laws;
