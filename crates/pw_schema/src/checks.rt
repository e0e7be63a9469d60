//! Whether a check is that of `office`.

ghost use Rattle.std.specs.Prelude.{◌≡◌, ◌↔◌, IsTrue, Some, pos, slice_get};
ghost use Rattle.pw_schema.specs.Tables.{only_one};
ghost use Rattle.pw_schema.specs.inner.Checks.{IsOnlyOne};

use sqlite_schema::code::{Op, Terms};
use sqlite_sql::ops::{BinaryOp, CompareOp};
use sqlite_value::keys::Collation;
use sqlite_value::value::Value;

// Whether the node at a place is the rowid.
fn is_id(nodes: &[Op], at: usize) -> bool
    ensures { IsTrue result ↔ (slice_get nodes.now at ≡ Some (Op.Column 1 0)) }
{
    match nodes.get(at) {
        Some(Op::Column(slot, place)) => *slot == 1 && *place == 0,
        _ => false,
    }
}

// Whether the node at a place is the number 1.
fn is_one(nodes: &[Op], at: usize) -> bool
    ensures { IsTrue result ↔ (slice_get nodes.now at ≡ Some (Op.Literal (Value.Int (pos 1)))) }
{
    match nodes.get(at) {
        Some(Op::Literal(Value::Int(number))) => *number == 1,
        _ => false,
    }
}

// Whether the node at a place is `id = 1`.
fn is_comparison(nodes: &[Op], root: usize) -> bool
    ensures is { IsTrue result → IsOnlyOne nodes.now root }
    ensures all { IsOnlyOne nodes.now root → IsTrue result }
{
    match nodes.get(root) {
        Some(Op::Binary(BinaryOp::Compare(CompareOp::Eq, Collation::Binary), id, one)) => {
            is_id(nodes, *id) && is_one(nodes, *one)
        }
        _ => false,
    }
}

// Whether there is one check, and it is `id = 1`.
pub(crate) fn is_only_one(checks: &Terms) -> bool
    ensures is { IsTrue result → checks.now ≡ only_one }
    ensures all { checks.now ≡ only_one → IsTrue result }
{
    match checks.roots.as_slice() {
        [root] => is_comparison(checks.nodes.as_slice(), *root),
        _ => false,
    }
}
