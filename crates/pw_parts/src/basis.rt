//! What the totals of a set of records go by.

use pw_tariff::Office;
use pw_time::Zone;
use std::alloc::Global;

// Where memory comes from, the office, and the zone that the office's bands are told in.
#[derive(Drop)]
pub(crate) struct Basis<'a> {
    pub(crate) alloc: Global,
    pub(crate) office: &'a Office,
    pub(crate) zone: &'a Zone,
}
