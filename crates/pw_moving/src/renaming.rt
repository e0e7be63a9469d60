//! Records by the names of another office.

ghost use Rattle.std.specs.Prelude.{◌≡◌, ◌<◌, IfOk, IfSome, IfNone, length};
ghost use Rattle.pw_tariff.specs.Office.{office_of};
ghost use Rattle.pw_model.specs.Office.{HasOwner, IsNamedOf, IsOfOffice};
ghost use Rattle.pw_moving.specs.Renaming.{CanBeCarried, by_names, carried, named_as, owner_as};
ghost use Rattle.pw_moving.specs.Tables.{HasAccounts, HasMeters, account_below, meter_below};

use pw_model::{Content, Entry, Key, Named};
use pw_tariff::{AccountId, MeterId, Office, Owner};
use std::alloc::{AllocError, Global};
use std::marker::Model;

/// Where the accounts and meters of an office stand in another one, by equal names. A contract sees it as the two
/// offices.
#[derive(Drop)]
pub struct Renaming<'a> {
    old: &'a Office,
    new: &'a Office,
    accounts: Vec<Option<AccountId>>,
    meters: Vec<Option<MeterId>>,
}

impl<'a> Model for Renaming<'a> {
    ghost use Rattle.pw_moving.specs.Renaming.{Offices};
    ghost use Rattle.pw_moving.specs.Tables.{AreTables};

    ghost Value = { Offices };

    ghost view = { λ r. record { old = r.old.now; new = r.new.now } };

    ghost invariant = { λ r. AreTables (record { old = r.old.now; new = r.new.now }) r.accounts.items r.meters.items };
}

// The place of each account in the new office, where its name stands there.
fn accounts_of(
    alloc: Global,
    old: &Office,
    new: &Office,
) -> Result<Vec<Option<AccountId>>, AllocError>
    ensures { IfOk result (λ table. HasAccounts (record { old = old.now; new = new.now })
        (length old.now.accounts) table.items) }
{
    let mut table = Vec::with_capacity(alloc, old.accounts() as usize)?;
    for account in 0..old.accounts() {
        let name = old.account_name(AccountId(account));
        table.push(new.account(name.as_bytes()))?;
    }
    Ok(table)
}

// The place of each meter, likewise.
fn meters_of(alloc: Global, old: &Office, new: &Office) -> Result<Vec<Option<MeterId>>, AllocError>
    ensures { IfOk result (λ table. HasMeters (record { old = old.now; new = new.now })
        (length old.now.meters) table.items) }
{
    let mut table = Vec::with_capacity(alloc, old.meters() as usize)?;
    for meter in 0..old.meters() {
        let name = old.meter_name(MeterId(meter));
        table.push(new.meter(name.as_bytes()))?;
    }
    Ok(table)
}

impl<'a> Renaming<'a> {
    /// The renaming from an office to another one. It fails only where memory is refused.
    pub fn by_names(
        alloc: Global,
        old: &'a Office,
        new: &'a Office,
    ) -> Result<Renaming<'a>, AllocError>
        ensures { IfOk result (λ r. r ≡ record { old = old.now; new = new.now }) }
    {
        let accounts = accounts_of(alloc, old, new)?;
        let meters = meters_of(alloc, old, new)?;
        Ok(Renaming {
            old,
            new,
            accounts,
            meters,
        })
    }

    /// The record of the new office that a record of the old one is there; none where that office can't hold it: an
    /// account or a meter that it names isn't there, or its register doesn't count there. It takes no memory.
    pub fn carry(&self, entry: &Entry) -> Option<Entry>
        requires { IsOfOffice (office_of self.now.old) entry.now }
        ensures some { IfSome result (λ e. (e ≡ carried self.now entry.now)
            × IsOfOffice (office_of self.now.new) e) }
        ensures none { IfNone result (CanBeCarried self.now entry.now → ⊥) }
    {
        if let Key::Withdrawal { named } = &entry.key {
            let named = self.carry_named(named)?;
            return Some(Entry {
                key: Key::Withdrawal { named },
                content: Content::Withdrawal,
            });
        }
        let named = self.carry_named(&Named::of(entry)?)?;
        Some(named.entry())
    }

    // A reading, an assignment or a top-up in the new office.
    fn carry_named(&self, named: &Named) -> Option<Named>
        requires { IsNamedOf (office_of self.now.old) named.now }
        ensures some { IfSome result (λ n. (n ≡ named_as (by_names self.now) named.now)
            × IsNamedOf (office_of self.now.new) n) }
        ensures none { IfNone result (IsNamedOf (office_of self.now.new)
            (named_as (by_names self.now) named.now) → ⊥) }
    {
        let mut there = *named;
        match &mut there {
            Named::Reading {
                meter,
                register,
                ..
            } => {
                *meter = self.meter(*meter)?;
                if !self.new.counts(*meter, *register) {
                    return None;
                }
            }
            Named::Assignment { meter, owner, .. } => {
                *meter = self.meter(*meter)?;
                *owner = self.owner(*owner)?;
            }
            Named::TopUp { account, .. } => *account = self.account(*account)?,
        }
        Some(there)
    }

    // An account in the new office.
    fn account(&self, account: AccountId) -> Option<AccountId>
        requires { account.0 < length self.now.old.accounts }
        ensures { result ≡ account_below (length self.now.new.accounts)
            ((by_names self.now).account account.0) }
    {
        self.accounts[account.0 as usize]
    }

    // A meter in the new office.
    fn meter(&self, meter: MeterId) -> Option<MeterId>
        requires { meter.0 < length self.now.old.meters }
        ensures { result ≡ meter_below (length self.now.new.meters)
            ((by_names self.now).meter meter.0) }
    {
        self.meters[meter.0 as usize]
    }

    // An owner in the new office: nobody, or an account.
    fn owner(&self, owner: Owner) -> Option<Owner>
        requires { HasOwner (office_of self.now.old) owner }
        ensures some { IfSome result (λ o. (o ≡ owner_as (by_names self.now) owner)
            × HasOwner (office_of self.now.new) o) }
        ensures none { IfNone result (HasOwner (office_of self.now.new)
            (owner_as (by_names self.now) owner) → ⊥) }
    {
        match owner {
            None => Some(None),
            Some(account) => Some(Some(self.account(account)?)),
        }
    }
}
