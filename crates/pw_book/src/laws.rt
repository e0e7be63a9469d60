//! The laws of the book.
//!
//! Each function changes nothing. What counts is its contract.

ghost use Rattle.std.specs.Prelude.{◌≡◌, false, map};
ghost use Rattle.pw_model.specs.Counting.{contents_at};
ghost use Rattle.pw_model.specs.Energy.{all_rises, energy, over_bands, over_owners};
ghost use Rattle.pw_tariff.specs.Office.{office_of};
ghost use Rattle.pw_tariff.specs.declared.ids.Direction.{Direction};
ghost use Rattle.pw_record.specs.Laws.{upload_of};
ghost use Rattle.pw_book.specs.After.{HaveOneAfter, LeavesAfter, OrderOfUploadsCountsNothing, RunsLeaveAfter};

mod crashes;

use crate::book::Book;
pub use crashes::{Sent, uploads_survive_a_crash};
pub use pw_record::laws::UploadBytes;
use pw_record::laws::each_upload_has_one_outcome;
use pw_shelf::Shelf;
use pw_tariff::Office;

/// Conservation of energy: in a book that isn't shut, over a store that returned what was written, over all owners with
/// nobody and all bands, the energies of a direction, which `energy` answers, add up to the rises of all neighbouring
/// readings that don't fall.
pub fn conservation_of_energy<S: Shelf>(book: &Book<S>)
    ensures { book.now.shut ≡ false → S.clean book.now.shelf → (d : Direction)
        → over_owners (office_of book.now.office)
        (λ o. over_bands (office_of book.now.office)
        (λ b. energy (office_of book.now.office) (S.state book.now.shelf).content.records o b d))
        ≡ all_rises (office_of book.now.office)
        (contents_at (S.state book.now.shelf).content.records) d }
{
    let _ = book.office().bands();
}

/// The records that a book holds are those after the uploads that it was sent: one upload more that it takes adds what the
/// upload gives, and one that is refused for its content adds nothing. Uploads that are answered `Full`, `Device` or
/// `Memory` are none of them: `post` says that they leave what is held as it was.
pub fn records_are_those_after_uploads(office: &Office)
    ensures { LeavesAfter office.now }
{
    let _ = office.bands();
}

/// After any list of uploads to a book, over a store that returned what was written, each accepted, refused in
/// reading it, or answered `Full`, `Device` or `Memory`: the records held at the end are those at the beginning, and all that the
/// accepted uploads give. An upload that is refused for its content may be counted in or left out: it brings nothing. Two
/// such lists that begin with the same records and accept the same uploads, in whatever order and however often, end with
/// the same records, and the same answers to every question.
///
/// (An upload that is answered `Reopen` ends such a list: what is held behind it is known when the store is opened again.)
pub fn records_are_those_after_runs(office: &Office)
    ensures { RunsLeaveAfter office.now }
{
    let _ = office.bands();
}

/// Order counts nothing, and repetition neither: the same uploads have the same records after them, and the same answers,
/// in any order.
pub fn order_of_uploads_counts_nothing(office: &Office)
    ensures { OrderOfUploadsCountsNothing office.now }
{
    let _ = office.bands();
}

/// Any list of uploads has one outcome of each, and so records after it: whatever was held before, they are that and all
/// that the uploads give. No other set is, so that what uploads leave is a function of the office, of what was held before,
/// and of the uploads.
pub fn uploads_have_one_after(office: &Office, uploads: &[UploadBytes])
    ensures { HaveOneAfter office.now (map upload_of uploads.now) }
{
    let _ = office.bands();
    for upload in uploads {
        each_upload_has_one_outcome(office, *upload);
    }
}
