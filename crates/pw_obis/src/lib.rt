//! The data sets of a meter's block: its lines, the OBIS codes of their addresses,
//! and the watt-hours of a register's value.
//!
//! Lines and values are those of IEC 62056-21 and of the DSMR P1 Companion Standard 5.0.2,
//! codes those of IEC 62056-6-1. No call takes memory: sets are slices of the block.
#![tactic(auto)]

mod address;
mod block;
mod data_set;
mod energy;
mod fault;
pub mod laws;
mod line;
mod meaning;
mod reader;
mod reference;
mod texts;
mod value;

pub use address::code;
pub use block::{Block, BlockSets};
pub use data_set::{Set, first_value};
pub use energy::{LARGEST_WATT_HOURS, WattHours};
pub use fault::LineFault;
pub use meaning::{Meaning, is_date, is_identifier, is_stamp, is_time, register};
pub use reader::Sets;
pub use reference::{Code, Register};
pub use value::{ValueFault, watt_hours};
