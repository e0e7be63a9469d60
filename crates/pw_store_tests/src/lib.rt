//! Tests of what reaches SQL's engine, by public calls alone: of the book over each store, and of the store over SQL. What
//! commands show of files and stores stands in the cases.
#![tactic(auto)]

#[cfg(test)]
mod book;
#[cfg(test)]
mod disk;
#[cfg(test)]
mod entries;
#[cfg(test)]
mod laws;
#[cfg(test)]
mod schema;
#[cfg(test)]
mod server;
#[cfg(test)]
mod sql_stores;
#[cfg(test)]
mod store;
