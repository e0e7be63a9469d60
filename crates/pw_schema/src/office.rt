//! What the row of `office` says of version and text.

ghost use Rattle.std.specs.Prelude.{◌≡◌, ◌↔◌, [], ◌∷◌, Err, IfNone, IfOk, IfSome, IsTrue, pos};
ghost use Rattle.sqlite.specs.Order.{Row as RowSpec, column};
ghost use Rattle.sqlite.specs.declared.types.Value.TheVariants.{Blob, Int};
ghost use Rattle.pw_schema.specs.Judging.{HasOtherVersion, HasVersion, KeepsVersion};
ghost use Rattle.pw_schema.specs.Tables.{version_number};
ghost use Rattle.pw_schema.specs.declared.kind.StoreVersion.{StoreVersion as StoreVersionSpec};

use crate::kind::StoreVersion;
use sqlite::Row;
use sqlite::types::ValueRef;

/// Why the row of `office` isn't that of a store of a version that is known.
#[derive(Clone, Copy, Debug, PartialEq, Eq)]
pub enum OfficeFault {
    /// There is no row.
    Missing,
    /// The row has another version than those that are known.
    Version,
}

// The version that the row tells, if it is known.
fn version_of(row: &Row) -> Option<StoreVersion>
    ensures some { IfSome result (λ version.
        column row.now 0 ≡ Int (pos (version_number version))) }
    ensures none { IfNone result ((version : StoreVersionSpec)
        → column row.now 0 ≡ Int (pos (version_number version)) → ⊥) }
{
    match row.get_ref(0) {
        Ok(ValueRef::Int(1)) => Some(StoreVersion::First),
        Ok(ValueRef::Int(2)) => Some(StoreVersion::Second),
        Ok(ValueRef::Int(3)) => Some(StoreVersion::Third),
        _ => None,
    }
}

fn has_text(row: &Row, text: &[u8]) -> bool
    ensures { IsTrue result ↔ (column row.now 1 ≡ Blob text.now) }
{
    match row.get_ref(1) {
        Ok(ValueRef::Blob(body)) => body == text,
        _ => false,
    }
}

/// The version that the rows of `office`, of which there is one at most, tell, if it is known.
pub fn judge_version(rows: &[Row]) -> Result<StoreVersion, OfficeFault>
    ensures version { IfOk result (λ version. HasVersion version rows.now) }
    ensures missing { result ≡ Err OfficeFault.Missing → (row : RowSpec) → rows.now ≡ row ∷ [] → ⊥ }
    ensures other { result ≡ Err OfficeFault.Version → HasOtherVersion rows.now }
{
    let [row] = rows else {
        return Err(OfficeFault::Missing);
    };
    match version_of(row) {
        Some(version) => Ok(version),
        None => Err(OfficeFault::Version),
    }
}

fn is_version(row: &Row, version: StoreVersion) -> bool
    ensures { IsTrue result ↔ (column row.now 0 ≡ Int (pos (version_number version))) }
{
    match row.get_ref(0) {
        Ok(ValueRef::Int(kept)) => kept == number_of(version),
        _ => false,
    }
}

fn number_of(version: StoreVersion) -> i64
    ensures { result ≡ pos (version_number version) }
{
    match version {
        StoreVersion::First => 1,
        StoreVersion::Second => 2,
        StoreVersion::Third => 3,
    }
}

/// Whether the rows of `office` keep this version and the text.
pub fn keeps_office(rows: &[Row], version: StoreVersion, text: &[u8]) -> bool
    ensures is { IsTrue result → KeepsVersion version text.now rows.now }
    ensures all { KeepsVersion version text.now rows.now → IsTrue result }
{
    let [row] = rows else {
        return false;
    };
    is_version(row, version) && has_text(row, text)
}
