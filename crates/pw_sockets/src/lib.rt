//! Connections as sockets of this machine, none of which is waited for alone: each call returns at once, but the one that
//! waits for all.
#![tactic(auto)]

mod accepting;
mod admission;
mod alarm;
mod client;
mod input;
mod limits;
mod observer;
mod parting;
mod queue;
mod sockets;

pub use accepting::{Hindrance, PAUSE, hindrance_of};
pub use limits::{Course, LAST_READS, PARTING, PATIENCE, left_of};
pub use observer::{Broke, Told};
pub use sockets::Sockets;
