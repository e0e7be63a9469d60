//! How the difference between two meter readings is spread over the seconds between them.
//!
//! The definitions stand in `specs/`: the level between two readings, the flow of a second, and the energy of a
//! register over the seconds that are kept. The module `laws` states what holds of them, and the module `plain`
//! computes them one second at a time.
#![tactic(auto)]

pub mod laws;
pub mod plain;
