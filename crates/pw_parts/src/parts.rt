//! The points, starts and totals of a set of records.

ghost use Rattle.std.specs.Prelude.{◌≡◌, ◌<◌, ◌≤◌, IfOk, length};
ghost use Rattle.pw_model.specs.Lists.{Lists};
ghost use Rattle.pw_model.specs.Office.{AllOfOffice, most_records};
ghost use Rattle.pw_model.specs.Shelf.{total_among};
ghost use Rattle.pw_tariff.specs.Office.{office_of};
ghost use Rattle.pw_parts.specs.Parts.{IsPartsOf, by_total};
ghost use Rattle.pw_parts.specs.inner.Given.{AreCounted};

use crate::basis::Basis;
use crate::changes::Changes;
use crate::counting::counting;
use crate::energies::add_meters;
use crate::payments::add_payments;
use crate::places::{assignments_among, readings_among, top_ups_among};
use pw_model::{Entry, TotalKey};
use pw_tariff::Office;
use pw_time::Zone;
use std::alloc::{AllocError, Global};

/// The points, starts and totals of a set of records.
#[derive(Drop)]
pub struct Parts {
    /// The readings that count, in the order of their keys.
    pub points: Vec<Entry>,
    /// The assignments that count, in the order of their keys.
    pub starts: Vec<Entry>,
    /// The totals above 0, each with its key: energies in Wh first, by owner (nobody first), period, band and direction,
    /// then top-ups in cents, by account.
    pub totals: Vec<(TotalKey, u64)>,
}

/// The points, starts and totals of a list of records of an office: what a shelf that holds these records keeps beside
/// them. In what order the list has them, and how often, counts nothing.
///
/// It fails only where memory is refused. It sorts a copy of the list, and apportions each pair of neighbouring readings
/// once.
pub fn true_parts(
    alloc: Global,
    office: &Office,
    zone: &Zone,
    entries: &[Entry],
) -> Result<Parts, AllocError>
    requires of_office { AllOfOffice (office_of office.now) entries.now }
    requires few { length entries.now ≤ most_records }
    ensures { IfOk result (λ parts. IsPartsOf (office_of office.now) entries.now parts) }
{
    let counted = counting(alloc, entries)?;
    let basis = Basis {
        alloc,
        office,
        zone,
    };
    let totals = totals_of(&basis, &counted)?;
    let points = Vec::from_slice(alloc, readings_among(&counted))?;
    let starts = Vec::from_slice(alloc, assignments_among(&counted))?;
    Ok(Parts {
        points,
        starts,
        totals,
    })
}

// The totals above 0 of records in order that all count.
fn totals_of(basis: &Basis, records: &[Entry]) -> Result<Vec<(TotalKey, u64)>, AllocError>
    requires counted { AreCounted (office_of basis.now.office.now) records.now }
    requires few { length records.now ≤ most_records }
    ensures { IfOk result (λ totals. Lists by_total
        (λ t. (t.1 ≡ total_among (office_of basis.now.office.now) records.now t.0) × (0 < t.1))
        totals.items) }
{
    // an office is sound, so that no total is too large
    let _meters = basis.office.meters();
    let mut totals = Changes::new(basis.alloc);
    add_meters(&mut totals, basis, records)?;
    add_payments(&mut totals, top_ups_among(records))?;
    totals.gains(basis.alloc)
}
