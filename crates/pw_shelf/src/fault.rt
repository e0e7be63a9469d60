//! Why a call of a shelf fails.

ghost use Rattle.std.specs.Prelude.{◌≡◌};
ghost use Rattle.pw_shelf.specs.declared.fault.ShelfFault.TheVariants.{Memory};

use std::alloc::{AllocError, AllocFailed};

/// Why a call of a shelf fails.
#[derive(Clone, Copy, Debug, PartialEq, Eq)]
pub enum ShelfFault {
    /// Memory was refused.
    Memory,
    /// The device of the store failed, or refused for another cause than memory.
    Device,
}

impl From<AllocError> for ShelfFault {
    ghost from_gives = { λ _ e. e ≡ Memory };

    fn from(_: AllocError) -> Self {
        ShelfFault::Memory
    }
}

impl<T: Drop> From<AllocFailed<T>> for ShelfFault {
    ghost from_gives = { λ _ e. e ≡ Memory };

    fn from(_: AllocFailed<T>) -> Self {
        ShelfFault::Memory
    }
}
