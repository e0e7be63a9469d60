//! 100,000 records in mixed order, in 10,000 blocks of ten seconds from 2024-01-01T00:00:00Z on.
//!
//! The readings of the block B show 100 B and more: at its seconds 0, 1, 2 and 4 the values 0, 10, 20 and 30, at 3 the
//! fallen 15, at 5 both 40 and 41; that of second 4 is told twice. At its start the meter is given to the first account
//! where B is even, to the second one else. A top-up of B + 1 cents is the first account's where B ends with 0, and else
//! of 1 cent the second one's.

ghost use Rattle.std.specs.Prelude.{◌<◌};

use pw_model::{Content, Entry, Key, Reference};
use pw_obis::{Register, WattHours};
use pw_tariff::{AccountId, MeterId};
use pw_time::Instant;
use std::alloc::{AllocError, Global};

// 2024-01-01T00:00:00Z.
const NEW_YEAR: u32 = 1_704_067_200;

const METER: MeterId = MeterId(0);

// The seconds and watt-hours of a block's readings.
const OF_BLOCK: [(u8, u8); 8] = [
    (0, 0),
    (4, 30),
    (1, 10),
    (5, 41),
    (2, 20),
    (3, 15),
    (5, 40),
    (4, 30),
];

// Adds the records of all blocks.
pub(crate) fn push_blocks(alloc: Global, entries: &mut Vec<Entry>) -> Result<(), AllocError> {
    for step in 0..10_000_u32 {
        let block = step * 7_919 % 10_000;
        if let Some(start) = Instant::of(NEW_YEAR + 10 * block) {
            push_readings(entries, block)?;
            let account = AccountId(if block % 2 == 0 { 0 } else { 1 });
            let key = Key::Assignment {
                meter: METER,
                start,
            };
            let content = Content::Assignment {
                owner: Some(account),
            };
            entries.extend_from_slice(&[Entry { key, content }])?;
            push_topup(alloc, entries, start, block)?;
        }
    }
    Ok(())
}

fn push_readings(entries: &mut Vec<Entry>, block: u32) -> Result<(), AllocError>
    requires { block < 10000 }
{
    for (second, more) in OF_BLOCK {
        let at = Instant::of(NEW_YEAR + 10 * block + u32::from(second));
        let shown = WattHours::of(100 * u64::from(block) + u64::from(more));
        if let (Some(instant), Some(wh)) = (at, shown) {
            let key = Key::Reading {
                meter: METER,
                register: Register::I1,
                instant,
            };
            let content = Content::Reading { wh };
            entries.extend_from_slice(&[Entry { key, content }])?;
        }
    }
    Ok(())
}

fn push_topup(
    alloc: Global,
    entries: &mut Vec<Entry>,
    instant: Instant,
    block: u32,
) -> Result<(), AllocError>
    requires { block < 10000 }
{
    let text = format!(in alloc; "T{block}")?;
    if let Some(reference) = Reference::of(text.as_bytes()) {
        let (account, cents) = if block % 10 == 0 {
            (0, block + 1)
        } else {
            (1, 1)
        };
        entries.extend_from_slice(&[Entry {
            key: Key::TopUp { reference },
            content: Content::TopUp {
                account: AccountId(account),
                cents,
                instant,
            },
        }])?;
    }
    Ok(())
}
