//! Whether columns are those of a table.

ghost use Rattle.std.specs.Prelude.{◌≡◌, ◌↔◌, [], ◌∷◌, IsTrue, codes, map};
ghost use Rattle.pw_schema.specs.Tables.{column_of, of_integers, rowid_column};
ghost use Rattle.pw_schema.specs.inner.Stages.{stored};

use crate::table::StoreTable;
use sqlite_schema::schema::{Column, Kind};
use sqlite_value::keys::Collation;
use sqlite_value::value::Value;

fn has_no_default(column: &Column) -> bool
    ensures { IsTrue result ↔ (column.now.default ≡ Value.Null) }
{
    match &column.default {
        Value::Null => true,
        _ => false,
    }
}

fn is_column(column: &Column, name: &[u8], kind: Kind) -> bool
    ensures is { IsTrue result → column.now ≡ column_of name.now kind }
    ensures all { column.now ≡ column_of name.now kind → IsTrue result }
{
    column.name.as_slice() == name
        && column.kind == kind
        && column.is_strict
        && column.not_null
        && column.collation == Collation::Binary
        && has_no_default(column)
}

fn is_rowid_column(column: &Column, name: &[u8]) -> bool
    ensures is { IsTrue result → column.now ≡ rowid_column name.now }
    ensures all { column.now ≡ rowid_column name.now → IsTrue result }
{
    column.name.as_slice() == name
        && column.kind == Kind::Integer
        && column.is_strict
        && !column.not_null
        && column.collation == Collation::Binary
        && has_no_default(column)
}

fn are_integers(columns: &[Column], names: &[&[u8]]) -> bool
    ensures is { IsTrue result → columns.now ≡ of_integers (map (λ n. n.now) names.now) }
    ensures all { columns.now ≡ of_integers (map (λ n. n.now) names.now) → IsTrue result }
{
    let [column, columns @ ..] = columns else {
        return names.is_empty();
    };
    let [name, names @ ..] = names else {
        return false;
    };
    is_column(column, name, Kind::Integer) && are_integers(columns, names)
}

fn are_topup_columns(columns: &[Column]) -> bool
    ensures is { IsTrue result → columns.now
        ≡ column_of (codes "reference") Kind.Text ∷ of_integers
        (codes "account" ∷ codes "cents" ∷ codes "instant" ∷ []) }
    ensures all { columns.now ≡ column_of (codes "reference") Kind.Text ∷ of_integers
        (codes "account" ∷ codes "cents" ∷ codes "instant" ∷ []) → IsTrue result }
{
    let [reference, numbers @ ..] = columns else {
        return false;
    };
    is_column(reference, b"reference".as_slice(), Kind::Text)
        && are_integers(
            numbers,
            [
                b"account".as_slice(),
                b"cents".as_slice(),
                b"instant".as_slice(),
            ]
            .as_slice(),
        )
}

fn are_sum_columns(columns: &[Column]) -> bool
    ensures is { IsTrue result → columns.now
        ≡ rowid_column (codes "account") ∷ of_integers (codes "cents" ∷ []) }
    ensures all { columns.now ≡ rowid_column (codes "account") ∷ of_integers (codes "cents" ∷ [])
        → IsTrue result }
{
    let [account, numbers @ ..] = columns else {
        return false;
    };
    is_rowid_column(account, b"account".as_slice())
        && are_integers(numbers, [b"cents".as_slice()].as_slice())
}

fn are_office_columns(columns: &[Column]) -> bool
    ensures is { IsTrue result → columns.now
        ≡ rowid_column (codes "id") ∷ column_of (codes "version") Kind.Integer ∷ column_of
        (codes "body") Kind.Blob ∷ [] }
    ensures all { columns.now ≡ rowid_column (codes "id") ∷ column_of (codes "version") Kind.Integer
        ∷ column_of (codes "body") Kind.Blob ∷ [] → IsTrue result }
{
    let [id, rest @ ..] = columns else {
        return false;
    };
    let [version, last @ ..] = rest else {
        return false;
    };
    let [body] = last else {
        return false;
    };
    is_rowid_column(id, b"id".as_slice())
        && is_column(version, b"version".as_slice(), Kind::Integer)
        && is_column(body, b"body".as_slice(), Kind::Blob)
}

// Whether the columns are a table's.
pub(crate) fn are_columns(columns: &[Column], table: StoreTable) -> bool
    ensures is { IsTrue result → columns.now ≡ (stored table).columns }
    ensures all { columns.now ≡ (stored table).columns → IsTrue result }
{
    let meter = b"meter".as_slice();
    let owner = b"owner".as_slice();
    let wh = b"wh".as_slice();
    match table {
        StoreTable::Office => are_office_columns(columns),
        StoreTable::TopUps | StoreTable::WithdrawnTopUps => are_topup_columns(columns),
        StoreTable::TotalTopUps => are_sum_columns(columns),
        StoreTable::Readings | StoreTable::Points | StoreTable::WithdrawnReadings => are_integers(
            columns,
            [meter, b"register".as_slice(), b"instant".as_slice(), wh].as_slice(),
        ),
        StoreTable::Assignments | StoreTable::Starts | StoreTable::WithdrawnAssignments => {
            are_integers(columns, [meter, b"start".as_slice(), owner].as_slice())
        }
        StoreTable::Totals => are_integers(
            columns,
            [owner, b"band".as_slice(), b"direction".as_slice(), wh].as_slice(),
        ),
        StoreTable::PeriodTotals => are_integers(
            columns,
            [
                owner,
                b"period".as_slice(),
                b"band".as_slice(),
                b"direction".as_slice(),
                wh,
            ]
            .as_slice(),
        ),
    }
}
