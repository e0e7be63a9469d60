//! The pages of a book as text: the statement of an account, its months, the tables, the exports.
#![tactic(auto)]

mod accounts;
mod bills;
mod days;
mod disputes;
mod energies;
mod falls;
pub mod laws;
mod months;
mod names;
mod one_meter;
mod page;
mod put;
mod readiness;
mod readings;
mod records;
mod rows;
mod statements;
mod why;

pub use accounts::accounts_table;
pub use bills::bill_page;
pub use days::days_page;
pub use disputes::disputes_table;
pub use energies::export_energy;
pub use falls::falls_table;
pub use months::{Month, month_of};
pub use one_meter::export_meter;
pub use page::{MonthPage, Page, Table, page_text};
pub use readings::export_readings;
pub use records::{export_assignments, export_topups, export_withdrawals};
pub use statements::statement;
pub use why::why_page;
