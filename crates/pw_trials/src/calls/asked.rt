//! What the calls are asked of.

use pw_model::Entry;
use pw_tariff::Office;
use pw_time::Zone;
use std::alloc::Global;

// An office, the text of its file, its zone and the records that are held.
#[derive(Drop)]
pub(crate) struct Asked<'a> {
    pub(crate) alloc: Global,
    pub(crate) text: &'a [u8],
    pub(crate) office: &'a Office,
    pub(crate) zone: &'a Zone,
    pub(crate) entries: &'a [Entry],
}
