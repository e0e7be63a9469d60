//! Tests of the crates below by public calls alone: devices that fail, and laws and calls that no command makes. (Rows
//! worked out by hand, and texts that are refused, stand in `cases/`; streams that fail in `tests/words`.)
#![tactic(auto)]

pub mod books;
pub mod ends;
#[cfg(test)]
mod entries;
#[cfg(test)]
mod flow;
#[cfg(test)]
mod http;
#[cfg(test)]
mod laws;
#[cfg(test)]
mod new_books;
pub mod offices;
#[cfg(test)]
mod record;
#[cfg(test)]
mod report;
pub mod sample;
#[cfg(test)]
mod shelf;
#[cfg(test)]
mod streams;
#[cfg(test)]
mod time;
#[cfg(test)]
mod words;
