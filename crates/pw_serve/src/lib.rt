//! Requests of many connections, answered one after another on one thread.
#![tactic(auto)]

mod connections;
mod peer;
mod peers;
mod serve;
mod service;
mod turn;

pub use connections::{Connections, Ending, Event, Stop};
pub use peer::LARGE;
pub use peers::MOST_CONNECTIONS;
pub use serve::serve_many;
pub use service::{Answer, SHORT_REPLY, Service};
