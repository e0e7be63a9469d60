//! Values as parameters of statements.

ghost use Rattle.std.specs.Prelude.{◌≡◌, ◌<◌, ◌^◌, pos};
ghost use Rattle.sqlite.specs.declared.types.Value.TheVariants.{Int, Text};
ghost use Rattle.sqlite_value.specs.Value.{owned};
ghost use Rattle.pw_tariff.specs.Cells.{owner_place as told_owner};
ghost use Rattle.pw_model.specs.Same.{direction_place as told_direction};

use pw_model::Reference;
use pw_tariff::{Direction, Owner};
use sqlite::types::{ToSql, ValueRef};

/// A number, as the value of a parameter.
pub fn integer<'a>(number: u32) -> ValueRef<'a>
    ensures { owned result ≡ Int (pos number) }
{
    number.to_sql()
}

/// A number of watt-hours or cents, likewise.
pub fn wide<'a>(number: u64) -> ValueRef<'a>
    requires { number < 2 ^ 63 }
    ensures { owned result ≡ Int (pos number) }
{
    ValueRef::Int(number as i64)
}

/// The place of an owner: 0 for nobody, else one more than the account's position.
pub fn owner_place(owner: Owner) -> u32
    ensures { result ≡ told_owner owner }
{
    match owner {
        Some(account) => u32::from(account.0) + 1,
        None => 0,
    }
}

/// The place of a direction: 0 for import, 1 for export.
pub fn direction_place(direction: Direction) -> u32
    ensures { result ≡ told_direction direction }
{
    match direction {
        Direction::Import => 0,
        Direction::Export => 1,
    }
}

/// A reference, as text.
pub fn words<'a>(reference: &'a Reference) -> ValueRef<'a>
    ensures { owned result ≡ Text reference.now }
{
    ValueRef::Text(reference.bytes())
}
