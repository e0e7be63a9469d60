//! Instants: stamps of telegrams, dates and times of readouts, and local weekdays and hours.
#![tactic(auto)]

mod changes;
mod civil;
mod days;
mod digits;
mod fault;
mod instant;
pub mod laws;
mod reading;
mod texts;
mod writing;
mod zone;

pub use days::{day_begin, month_span};
pub use fault::StampFault;
pub use instant::{END_SECOND, FIRST_SECOND, Instant, LAST_SECOND};
pub use reading::{readout_instant, stamp, utc};
pub use writing::write_utc;
pub use zone::{Clock, WeekHour, Zone, week_hour};
