//! Why words give no command.

ghost use Rattle.std.specs.Prelude.{◌≡◌, ◌≢◌};
ghost use Rattle.clap.specs.Values.{kind_of};
ghost use Rattle.pw_words.specs.Words.{IsRefusal};
ghost use Rattle.pw_words.specs.declared.fault.WordsFault.TheVariants.{Memory};

use clap::Error;
use clap::error::ErrorKind;
use std::alloc::{AllocError, Global};

/// Why words give no command.
#[derive(Debug, Drop)]
pub enum WordsFault {
    /// They ask for help, or for the version: its text.
    Help { text: String },
    /// They ask for no command: why, as a text.
    Words { text: String },
    /// Memory was refused.
    Memory,
}

impl From<AllocError> for WordsFault {
    ghost from_gives = { λ _ fault. fault ≡ Memory };

    fn from(_: AllocError) -> WordsFault {
        WordsFault::Memory
    }
}

// What an error of the parser means: help where the parser would end well, else wrong words.
pub(crate) fn fault_of(alloc: Global, error: &Error) -> WordsFault
    ensures { (kind_of error.now ≢ ErrorKind.DisplayHelp)
        → (kind_of error.now ≢ ErrorKind.DisplayVersion) → IsRefusal result }
{
    if error.kind() == ErrorKind::OutOfMemory {
        return WordsFault::Memory;
    }
    let Ok(text) = format!(in alloc; "{error}") else {
        return WordsFault::Memory;
    };
    if error.exit_code() == 0 {
        WordsFault::Help { text }
    } else {
        WordsFault::Words { text }
    }
}
