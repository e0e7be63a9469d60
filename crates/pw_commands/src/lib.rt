//! What the program's commands do, over files, stores, streams and connections.
#![tactic(auto)]

mod accepting;
mod adopting;
mod carrying;
mod changes;
mod client;
mod commands;
mod fault;
mod files;
mod hints;
pub mod laws;
mod listed;
mod loading;
mod offices;
mod pipe;
mod progress;
mod records;
mod server;
mod serving;
mod store;
mod telling;
mod trail;
mod verifying;
mod weighing;

pub use adopting::adopt_book;
pub use commands::{entries_of, run, run_watched};
pub use fault::Fault;
pub use files::{LONGEST_OFFICE, read_file};
pub use hints::name_unreadable;
pub use pipe::pipe_run;
pub use progress::{Follow, Loaded, Progress};
pub use server::{Term, serve_book, serve_told};
pub use serving::{serve, serve_on};
pub use store::{FileBook, close_book, connection_in, open_book, open_from};
pub use telling::{finish, tell, write_whole};
pub use weighing::{Weighed, weigh};
