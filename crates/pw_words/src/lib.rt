//! The program's words: which command they ask for.
#![tactic(auto)]

mod commands;
mod fault;
mod parser;
mod sample;
mod vocabulary;
pub mod words;

pub use commands::{
    Adoption, Carriage, Command, Exported, Loading, Renamed, Source, Target, Verification,
};
pub use fault::WordsFault;
pub use sample::SAMPLE;
