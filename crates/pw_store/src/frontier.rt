//! What is remembered of a register: the readings of an upload come in order, so where none is held from one of them on,
//! none of those behind it has to be looked for.

ghost use Rattle.std.specs.Prelude.{◌≡◌, ℕ, IfNone, IfSome, IsTrue, List, Some};
ghost use Rattle.pw_model.specs.Counting.{IsInserted, Member};
ghost use Rattle.pw_model.specs.declared.records.Entry.{Entry as TheEntry};
ghost use Rattle.pw_model.specs.declared.records.Key.TheVariants.{Reading};
ghost use Rattle.pw_store.specs.Frontier.{IsFrontier};

use pw_model::{Entry, Key};
use pw_obis::Register;
use pw_tariff::MeterId;
use pw_time::Instant;

// The instant from which on no reading of a register is held, if that is known.
#[derive(Clone, Copy)]
pub(crate) struct Frontier {
    pub(crate) meter: MeterId,
    pub(crate) register: Register,
    pub(crate) from: Option<Instant>,
}

impl Frontier {
    // The instant of a record, if it is a reading of the register.
    fn instant_of(&self, entry: &Entry) -> Option<Instant>
        ensures some { IfSome result
            (λ t. entry.now.key ≡ Reading self.now.meter self.now.register t) }
        ensures none { IfNone result ((t : ℕ)
            → entry.now.key ≡ Reading self.now.meter self.now.register t → ⊥) }
    {
        match entry.key {
            Key::Reading {
                meter,
                register,
                instant,
            } => {
                if meter == self.meter && register == self.register {
                    Some(instant)
                } else {
                    None
                }
            }
            _ => None,
        }
    }

    // It once a record is added.
    fn behind(self, entry: &Entry) -> Frontier
        ensures { (records all : List TheEntry) → IsInserted entry.now records all
            → IsFrontier (Some self) records → IsFrontier (Some result) all }
    {
        let Some(instant) = self.instant_of(entry) else {
            return self;
        };
        let Some(from) = self.from else {
            return self;
        };
        if instant < from {
            return self;
        }
        Frontier {
            meter: self.meter,
            register: self.register,
            from: Instant::of(instant.seconds() + 1),
        }
    }
}

// Whether what is known is of a register.
pub(crate) fn is_of(known: &Option<Frontier>, meter: MeterId, register: Register) -> bool {
    match known {
        Some(frontier) => frontier.meter == meter && frontier.register == register,
        None => false,
    }
}

// Whether a record is known not to be held.
pub(crate) fn excludes(known: &Option<Frontier>, entry: &Entry) -> bool
    ensures { IsTrue result → (records : List TheEntry) → IsFrontier known.now records
        → Member entry.now records → ⊥ }
{
    let Some(frontier) = known else {
        return false;
    };
    let Some(instant) = frontier.instant_of(entry) else {
        return false;
    };
    match frontier.from {
        Some(from) => from <= instant,
        None => false,
    }
}

// What is known once a record is added.
pub(crate) fn behind(known: Option<Frontier>, entry: &Entry) -> Option<Frontier>
    ensures { (records all : List TheEntry) → IsInserted entry.now records all
        → IsFrontier known records → IsFrontier result all }
{
    match known {
        Some(frontier) => Some(frontier.behind(entry)),
        None => None,
    }
}
