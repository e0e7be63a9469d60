//! Texts that add and find what is named, by the form in which it is kept.

ghost use Rattle.std.specs.Prelude.{◌≡◌};
ghost use Rattle.pw_store.specs.inner.Forms as texts;

use pw_model::Named;

// As what it is that something named is kept.
#[derive(Clone, Copy, Debug, PartialEq, Eq)]
pub(crate) enum Form {
    /// As a record.
    Record,
    /// As what a withdrawal names.
    Withdrawal,
}

impl Form {
    // The text that adds what is named.
    pub(crate) fn insert(self, named: &Named) -> &'static str
        ensures { result.now ≡ texts.insert self named.now }
    {
        match (self, named) {
            (Form::Record, Named::Reading { .. }) => {
                "INSERT INTO record_reading (meter, register, instant, wh) VALUES (?1, ?2, ?3, ?4)"
            }
            (Form::Record, Named::Assignment { .. }) => {
                "INSERT INTO record_assignment (meter, start, owner) VALUES (?1, ?2, ?3)"
            }
            (Form::Record, Named::TopUp { .. }) => {
                "INSERT INTO record_topup (reference, account, cents, instant) VALUES (?1, ?2, ?3, ?4)"
            }
            (Form::Withdrawal, Named::Reading { .. }) => {
                "INSERT INTO withdrawn_reading (meter, register, instant, wh) VALUES (?1, ?2, ?3, ?4)"
            }
            (Form::Withdrawal, Named::Assignment { .. }) => {
                "INSERT INTO withdrawn_assignment (meter, start, owner) VALUES (?1, ?2, ?3)"
            }
            (Form::Withdrawal, Named::TopUp { .. }) => {
                "INSERT INTO withdrawn_topup (reference, account, cents, instant) VALUES (?1, ?2, ?3, ?4)"
            }
        }
    }

    // The text that finds what is named.
    pub(crate) fn find(self, named: &Named) -> &'static str
        ensures { result.now ≡ texts.find self named.now }
    {
        match (self, named) {
            (Form::Record, Named::Reading { .. }) => {
                "SELECT wh FROM record_reading WHERE meter = ?1 AND register = ?2 AND instant = ?3 AND wh = ?4"
            }
            (Form::Record, Named::Assignment { .. }) => {
                "SELECT owner FROM record_assignment WHERE meter = ?1 AND start = ?2 AND owner = ?3"
            }
            (Form::Record, Named::TopUp { .. }) => {
                "SELECT account FROM record_topup WHERE reference = ?1 AND account = ?2 AND cents = ?3 AND instant = ?4"
            }
            (Form::Withdrawal, Named::Reading { .. }) => {
                "SELECT wh FROM withdrawn_reading WHERE meter = ?1 AND register = ?2 AND instant = ?3 AND wh = ?4"
            }
            (Form::Withdrawal, Named::Assignment { .. }) => {
                "SELECT owner FROM withdrawn_assignment WHERE meter = ?1 AND start = ?2 AND owner = ?3"
            }
            (Form::Withdrawal, Named::TopUp { .. }) => {
                "SELECT account FROM withdrawn_topup WHERE reference = ?1 AND account = ?2 AND cents = ?3 AND instant = ?4"
            }
        }
    }
}
