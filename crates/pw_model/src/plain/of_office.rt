//! Whether records are of an office.

ghost use Rattle.std.specs.Prelude.{IsTrue, ◌↔◌};
ghost use Rattle.pw_tariff.specs.Office.{office_of};
ghost use Rattle.pw_model.specs.Office.{AllOfOffice, IsOfOffice};

use super::terms::OfficeTerms;
use crate::of_office::is_of_office;
use crate::records::Entry;

/// Whether a record has a content of its key's kind, and all that it names is the office's.
pub fn is_entry_of_office(terms: &OfficeTerms<'_>, entry: &Entry) -> bool
    ensures { IsTrue result ↔ IsOfOffice (office_of terms.now) entry.now }
{
    is_of_office(terms.office(), entry)
}

/// Whether all records are.
pub fn are_of_office(terms: &OfficeTerms<'_>, entries: &[Entry]) -> bool
    ensures { IsTrue result ↔ AllOfOffice (office_of terms.now) entries.now }
{
    for entry in entries {
        if !is_entry_of_office(terms, entry) {
            return false;
        }
    }
    true
}
