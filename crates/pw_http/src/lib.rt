//! Requests and replies: what a stream of bytes asks, what a book answers to each request, and the bytes that are
//! replied.
#![tactic(auto)]

mod answering;
mod answers;
mod audience;
mod books;
mod conversation;
mod fault;
mod heads;
mod inbox;
pub mod laws;
mod replies;
mod requests;
mod routes;
mod send;
mod served;
mod service;
mod trail;

pub use answering::serve_connections;
pub use audience::{Audience, Origin, Scheme};
pub use books::{converse, converse_with, converse_within};
pub use conversation::{MOST_TURNS, serve_to, serve_within};
pub use fault::WireFault;
pub use heads::{LONGEST_HEAD, MOST_FIELDS};
pub use pw_frame::LONGEST_BODY;
pub use pw_page::File;
pub use replies::{ContentType, Status};
pub use requests::{ROOM, Refusal};
pub use routes::{Place, Route, Routes};
pub use send::send_reply;
pub use served::Served;
pub use service::Service;
pub use trail::{Trail, Trailed};
