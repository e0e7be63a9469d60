//! What `powerbook read` prints of a body: each frame with its meter, its stamp and its registers in watt-hours.
#![tactic(auto)]

mod fault;
mod frame_text;
mod moment;
mod run;
mod set_line;

pub use fault::{Cause, ReadFault, Refusal};
pub use frame_text::body_text;
pub use run::read_run;
