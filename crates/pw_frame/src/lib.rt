//! Frames of meter data: telegrams (DSMR P1 Companion Standard 5.0.2) with their CRC16, and data readouts
//! (IEC 62056-21) with their block check. No call takes memory: frames borrow the body that they stand in.
#![tactic(auto)]

mod bytes;
mod crc;
mod ending;
mod fault;
mod frame;
mod frames;
mod head;
mod hexadecimal;
pub mod laws;
mod parity;
mod search;
mod whole;
mod words;

pub use crc::{crc_update, crc16};
pub use fault::part_refused;
pub use frame::{Frame, FrameFault, Kind};
pub use frames::{Frames, LONGEST_BODY};
pub use parity::block_check;
pub use words::CRC_WORDS;
