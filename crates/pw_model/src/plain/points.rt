//! The counting readings of a register, in order.

ghost use Rattle.std.specs.Prelude.{◌≡◌, ℕ, ◌<◌, All, IfOk};
ghost use Rattle.pw_flow.specs.Plain.{value_at};
ghost use Rattle.pw_flow.specs.Time.{AreInTime};
ghost use Rattle.pw_time.specs.Instants.{IsInstant};
ghost use Rattle.pw_time.specs.declared.instant.TheConstants.{END_SECOND as the_end};
ghost use Rattle.pw_model.specs.Counting.{contents_at as held_at, point};

use super::reading_list::readings;
use crate::records::Entry;
use pw_flow::plain::Point;
use pw_obis::Register;
use pw_tariff::MeterId;
use std::alloc::{AllocError, Global};

/// The counting readings of a register, each behind the one before it.
pub fn points_of(
    alloc: Global,
    entries: &[Entry],
    meter: MeterId,
    register: Register,
) -> Result<Vec<Point>, AllocError>
    ensures rising { IfOk result (λ points. AreInTime (λ p. p.at) points.items) }
    ensures instants { IfOk result (λ points. All (λ p. IsInstant p.at) points.items) }
    ensures values { IfOk result (λ points. (t : ℕ) → t < the_end
        → value_at points.items t ≡ point (held_at entries.now) meter.0 register t) }
{
    let rows = readings(alloc, entries, meter, register)?;
    let mut points = Vec::new(alloc);
    for row in &rows {
        if row.counted {
            points.push(Point {
                at: row.instant.seconds(),
                watt_hours: row.wh.get(),
            })?;
        }
    }
    Ok(points)
}
