//! What points, starts and totals the records of a store that is opened have.

ghost use Rattle.std.specs.Prelude.{◌≡◌, ◌<◌, ◌≤◌, ◌⊎◌, Err, IfOk, OnErr, OnOk, length};
ghost use Rattle.pw_tariff.specs.Office.{office_of};
ghost use Rattle.pw_model.specs.Office.{AllOfOffice, most_records};
ghost use Rattle.pw_parts.specs.Parts.{IsPartsOf};

use crate::fault::OpenFault;
use pw_model::{Entry, MOST_RECORDS};
use pw_parts::{Parts, true_parts};
use pw_tariff::Office;
use pw_time::Zone;
use std::alloc::Global;

// The points, starts and totals of the records of an office, if these are not too many. The records aren't kept.
pub(crate) fn parts_of(
    alloc: Global,
    office: &Office,
    records: Vec<Entry>,
) -> Result<Parts, OpenFault>
    requires { AllOfOffice (office_of office.now) records.items }
    ensures few { OnOk result (length records.items ≤ most_records) }
    ensures parts { IfOk result (λ parts. IsPartsOf (office_of office.now) records.items parts) }
    ensures many { result ≡ Err OpenFault.Unclean → most_records < length records.items }
    ensures others { OnErr result ((result ≡ Err OpenFault.Unclean)
        ⊎ (result ≡ Err OpenFault.Memory)) }
{
    if records.len() > MOST_RECORDS as usize {
        return Err(OpenFault::Unclean);
    }
    true_parts(alloc, office, &Zone::central(), records.as_slice()).map_err(|_| OpenFault::Memory)
}
