//! Records from upload bodies: telegrams, readouts, and rows of assignments, of top-ups and of withdrawals.
#![tactic(auto)]

mod cents;
mod digits;
mod fault;
mod frames;
pub mod laws;
mod meanings;
mod order;
mod origin;
mod row;
mod rows;
mod shown;
mod uploads;
mod watt_hours;

pub use fault::{Cause, UploadFault};
pub use frames::{MOST_FRAMES, readout_records, telegram_records};
pub use laws::{UploadBytes, UploadKind};
pub use pw_model::{Content, Entry, Key, Named, Reference};
pub use rows::{MOST_ROWS, assignment_records, topup_records, withdrawal_records};
pub use uploads::upload_records;
