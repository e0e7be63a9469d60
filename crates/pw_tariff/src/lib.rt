//! The office file, its tariff bands, periods and prices, and how the difference between two readings is shared out.
#![tactic(auto)]

mod accounts;
mod bands;
mod cells;
mod fault;
mod ids;
pub mod laws;
mod limits;
mod meters;
mod office;
mod owners;
mod periods;
mod pieces;
mod read;
mod spread;
mod table;
mod walks;
mod week;
mod words;

pub use cells::Cell;
pub use fault::OfficeFault;
pub use ids::{AccountId, BandId, Direction, MeterId, Owner, PeriodId};
pub use limits::{
    LONGEST_ACCOUNT_NAME, LONGEST_METER_ID, MOST_ACCOUNTS, MOST_BANDS, MOST_METERS, MOST_PERIODS,
    MOST_PRICE,
};
pub use office::Office;
pub use owners::Owners;
pub use spread::{Piece, Span, apportion, pieces_of};
pub use walks::{AccountIds, BandIds, MeterIds};
