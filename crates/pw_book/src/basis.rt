//! What an upload goes by.

use pw_tariff::Office;
use pw_time::Zone;
use std::alloc::Global;

/// What an upload or a question goes by: where its memory comes from, the office, and the zone that the office's bands
/// are told in.
#[derive(Drop)]
pub struct Basis<'a> {
    pub alloc: Global,
    pub office: &'a Office,
    pub zone: &'a Zone,
}
