//! Uploads of each kind.

ghost use Rattle.std.specs.Prelude.{IfErr, IfOk};
ghost use Rattle.pw_tariff.specs.Office.{office_of};
ghost use Rattle.pw_model.specs.Office.{AllOfOffice};
ghost use Rattle.pw_record.specs.Laws.{upload_of};
ghost use Rattle.pw_record.specs.Uploads.{Gives, Refuses};

use crate::fault::UploadFault;
use crate::frames::{readouts_in, telegrams_in};
use crate::laws::{UploadBytes, UploadKind};
use crate::row::RowKind;
use crate::rows::rows_in;
use pw_model::Distinct;
use pw_tariff::Office;
use pw_time::Zone;
use std::alloc::Global;

/// The entries that an upload gives, in order, each once, or why it is refused.
///
/// `Memory` says nothing of the upload: memory was refused while it was read.
pub fn upload_records(
    alloc: Global,
    office: &Office,
    zone: &Zone,
    upload: UploadBytes,
) -> Result<Distinct, UploadFault>
    ensures entries { IfOk result (λ entries. Gives office.now (upload_of upload.entry)
        entries) }
    ensures of_office { IfOk result (λ entries. AllOfOffice (office_of office.now) entries) }
    ensures refused { IfErr result (λ fault. Refuses office.now (upload_of upload.entry) fault) }
{
    let body = upload.body;
    match upload.kind {
        UploadKind::Telegrams => telegrams_in(alloc, office, zone, body),
        UploadKind::Readouts(meter) => readouts_in(alloc, meter, office, zone, body),
        UploadKind::Assignments => rows_in(alloc, office, RowKind::Assignment, body),
        UploadKind::TopUps => rows_in(alloc, office, RowKind::TopUp, body),
        UploadKind::Withdrawals => rows_in(alloc, office, RowKind::Withdrawal, body),
    }
}
