//! How a withdrawal names a record.

ghost use Rattle.std.specs.Prelude.{◌≡◌};
ghost use Rattle.pw_model.specs.Counting.{named_entry, named_of};

use crate::records::{Content, Entry, Key, Named};

impl Named {
    /// How a withdrawal names a record.
    ///
    /// A withdrawal can't be withdrawn, and a record whose content isn't of its key's kind has no name either.
    pub fn of(entry: &Entry) -> Option<Named>
        ensures { result ≡ named_of entry.now.key entry.now.content }
    {
        match &entry.key {
            Key::Reading {
                meter,
                register,
                instant,
            } => {
                let Content::Reading { wh } = &entry.content else {
                    return None;
                };
                Some(Named::Reading {
                    meter: *meter,
                    register: *register,
                    instant: *instant,
                    wh: *wh,
                })
            }
            Key::Assignment { meter, start } => {
                let Content::Assignment { owner } = &entry.content else {
                    return None;
                };
                Some(Named::Assignment {
                    meter: *meter,
                    start: *start,
                    owner: *owner,
                })
            }
            Key::TopUp { reference } => {
                let Content::TopUp {
                    account,
                    cents,
                    instant,
                } = &entry.content
                else {
                    return None;
                };
                Some(Named::TopUp {
                    reference: *reference,
                    account: *account,
                    cents: *cents,
                    instant: *instant,
                })
            }
            Key::Withdrawal { .. } => None,
        }
    }

    /// The record that is named, whether it is held or not.
    pub fn entry(&self) -> Entry
        ensures { result ≡ named_entry self.now }
    {
        match *self {
            Named::Reading {
                meter,
                register,
                instant,
                wh,
            } => Entry {
                key: Key::Reading {
                    meter,
                    register,
                    instant,
                },
                content: Content::Reading { wh },
            },
            Named::Assignment {
                meter,
                start,
                owner,
            } => Entry {
                key: Key::Assignment { meter, start },
                content: Content::Assignment { owner },
            },
            Named::TopUp {
                reference,
                account,
                cents,
                instant,
            } => Entry {
                key: Key::TopUp { reference },
                content: Content::TopUp {
                    account,
                    cents,
                    instant,
                },
            },
        }
    }
}
