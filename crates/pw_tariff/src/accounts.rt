//! The accounts of an office file.

ghost use Rattle.std.specs.Prelude.{◌≡◌, MatchResult, map, string_bytes};
ghost use Rattle.toml.specs.View.{table_view};
ghost use Rattle.pw_tariff.specs.inner.Checks.{IsRefusal};
ghost use Rattle.pw_tariff.specs.inner.Checks.{Passes};
ghost use Rattle.pw_tariff.specs.Text.{account_checks, accounts_checks, accounts_of};
ghost use Rattle.pw_tariff.specs.inner.Checks.{accounts_in_turn};

use crate::OfficeFault;
use crate::limits::{LONGEST_ACCOUNT_NAME, MOST_ACCOUNTS};
use crate::table::{check_length, texts_at};
use crate::words::{is_name, is_new};
use std::alloc::Global;
use toml::Table;

// The names of the accounts, or the first refusal.
pub(crate) fn read_accounts(alloc: Global, table: &Table) -> Result<Vec<String>, OfficeFault>
    ensures { MatchResult result
        (λ v. Passes (accounts_checks (table_view table.now))
        × (map string_bytes v.items ≡ accounts_of (table_view table.now)))
        (λ e. IsRefusal (accounts_checks (table_view table.now)) e) }
{
    let names = texts_at(alloc, table, "accounts")?;
    check_length(names.len(), MOST_ACCOUNTS)?;
    check_accounts(&names)?;
    Ok(names)
}

// Each name is sound beside those before it.
fn check_accounts(names: &[String]) -> Result<(), OfficeFault>
    ensures { MatchResult result
        (λ _. Passes (accounts_in_turn (map string_bytes names.now)))
        (λ e. IsRefusal (accounts_in_turn (map string_bytes names.now)) e) }
{
    for (i, name) in names.iter().enumerate() {
        check_account(name.as_bytes(), &names[..i])?;
    }
    Ok(())
}

// A name has the form of one, and no account before has it.
fn check_account(name: &[u8], earlier: &[String]) -> Result<(), OfficeFault>
    ensures { MatchResult result
        (λ _. Passes (account_checks (map string_bytes earlier.now) name.now))
        (λ e. IsRefusal (account_checks (map string_bytes earlier.now) name.now) e) }
{
    if !is_name(LONGEST_ACCOUNT_NAME, name) {
        return Err(OfficeFault::BadName);
    }
    if !is_new(name, earlier) {
        return Err(OfficeFault::TwiceNamed);
    }
    Ok(())
}
