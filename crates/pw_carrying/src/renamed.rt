//! Records under the names of another office.

ghost use Rattle.std.specs.Prelude.{◌≡◌, IfOk, IfErr, IfSome, IfNone};
ghost use Rattle.pw_tariff.specs.Office.{office_of};
ghost use Rattle.pw_model.specs.Office.{AllOfOffice, IsOfOffice};
ghost use Rattle.pw_moving.specs.Renaming.{AllCanBeCarried, CanBeCarried, all_carried as carried_all, carried};
ghost use Rattle.pw_carrying.specs.inner.Stages.{IsOwnFault, Leads, StopsAt};

use crate::fault::CarryFault;
use pw_book::Basis;
use pw_model::Entry;
use pw_model::plain::{OfficeTerms, is_entry_of_office};
use pw_moving::Renaming;
use pw_tariff::Office;

// Some records of the basis' office, each as it is in another one: the first is told that the other one can't hold.
pub(crate) fn all_carried(
    basis: &Basis,
    new: &Office,
    records: &[Entry],
) -> Result<Vec<Entry>, CarryFault>
    ensures of_office { IfOk result (λ found. AllOfOffice (office_of new.now) found.items) }
    ensures carried { IfOk result (λ found. found.items
        ≡ carried_all (record { old = basis.now.office.now; new = new.now }) records.now) }
    ensures able { AllOfOffice (office_of basis.now.office.now) records.now
        → Leads result (AllCanBeCarried (record { old = basis.now.office.now; new = new.now })
        records.now) (StopsAt (record { old = basis.now.office.now; new = new.now }) records.now)
        (Unit {0}) }
    ensures fault { IfErr result IsOwnFault }
{
    let renaming = Renaming::by_names(basis.alloc, basis.office, new)?;
    let terms = OfficeTerms::new(basis.office, basis.zone);
    let mut found = Vec::with_capacity(basis.alloc, records.len())?;
    for entry in records {
        match carried(&terms, &renaming, entry) {
            Some(carried) => found.push(carried)?,
            None => return Err(CarryFault::Record(*entry)),
        }
    }
    Ok(found)
}

// A record of the old office as it is in the new one, if that can hold it. (One that isn't of the old office is told by a
// store alone that isn't clean.)
fn carried(terms: &OfficeTerms, renaming: &Renaming, entry: &Entry) -> Option<Entry>
    requires { renaming.now.old ≡ terms.now }
    ensures some { IfSome result (λ e. (e ≡ carried renaming.now entry.now)
        × IsOfOffice (office_of renaming.now.new) e) }
    ensures none { IfNone result (IsOfOffice (office_of terms.now) entry.now
        → CanBeCarried renaming.now entry.now → ⊥) }
{
    if !is_entry_of_office(terms, entry) {
        return None;
    }
    renaming.carry(entry)
}
