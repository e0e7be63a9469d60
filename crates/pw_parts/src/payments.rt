//! What top-ups give to the totals.

ghost use Rattle.std.specs.Prelude.{OnOk};
ghost use Rattle.pw_parts.specs.inner.Given.{payment_given, payments_given};
ghost use Rattle.pw_parts.specs.inner.Totals.{HasRoom, IsGiven};

use crate::changes::{Changes, Side};
use pw_model::{Content, Entry, TotalKey};
use std::alloc::AllocError;

// Gives each account its top-ups.
pub(crate) fn add_payments(totals: &mut Changes, top_ups: &[Entry]) -> Result<(), AllocError>
    requires { HasRoom (payments_given top_ups.now) totals.old.rows }
    ensures { OnOk result (IsGiven (payments_given top_ups.now) totals.old.rows totals.new.rows) }
{
    for entry in top_ups {
        add_payment(totals, entry)?;
    }
    Ok(())
}

// Gives the account of a top-up its cents.
fn add_payment(totals: &mut Changes, entry: &Entry) -> Result<(), AllocError>
    requires { HasRoom (payment_given entry.now) totals.old.rows }
    ensures { OnOk result (IsGiven (payment_given entry.now) totals.old.rows totals.new.rows) }
{
    let Content::TopUp { account, cents, .. } = &entry.content else {
        return Ok(());
    };
    let key = TotalKey::TopUps { account: *account };
    totals.add(Side::Gains, key, u64::from(*cents))
}
