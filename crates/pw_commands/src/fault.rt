//! Why a command is refused: the line that tells it, and the exit status.

ghost use Rattle.std.specs.Prelude.{◌≡◌, Some};
ghost use Rattle.pw_commands.specs.Faults.{fault_of_refusal, fault_status, fault_text};
ghost use Rattle.pw_commands.specs.declared.fault.Fault.TheVariants as fault;

use pw_book::{BookFault, PostFault};
use pw_found::{Cause, Refusal};
use pw_http::WireFault;
use pw_line::memory_refused;
use pw_record::{Cause as UploadCause, UploadFault};
use pw_store::OpenFault;
use pw_tariff::OfficeFault;
use std::alloc::{AllocError, AllocFailed};
use std::fmt;

/// Why a command is refused.
#[derive(Clone, Copy, Debug, Drop, PartialEq, Eq)]
pub enum Fault {
    /// 30 to 39, 62: the office file is refused.
    Office(OfficeFault),
    /// A file is longer than its kind may be.
    TooLarge,
    /// The file of an upload is refused.
    Upload(UploadFault),
    /// A line of a list names no upload: its number, from 1.
    List { line: u32 },
    /// The office has no account with the name.
    NoSuchAccount,
    /// No month has the text.
    NoSuchMonth,
    /// The office has no meter with the id.
    NoSuchMeter,
    /// No store is at the path, and the command makes none.
    NoSuchStore,
    /// The new office file says something otherwise that can't be adopted.
    NotAdopted,
    /// The new office file can't hold a record, which was told.
    NotCarried,
    /// Something is where the new store is to be made.
    NotFree,
    /// 70 to 73, 62: the store isn't opened.
    Store(OpenFault),
    /// The store's file isn't opened: a line tells why, before `device failed`.
    Unopened(Cause),
    /// 60 to 63: the book doesn't take an upload.
    Post(PostFault),
    /// 61 to 63: the book doesn't answer.
    Book(BookFault),
    /// 80 to 82, 62: a conversation stopped.
    Wire(WireFault),
    /// A file, a socket or a stream failed.
    Device,
    /// 62: memory was refused.
    Memory,
}

impl Fault {
    /// The exit status: 1 where what was given is refused, 3 where a file, socket, stream, store or memory failed.
    pub fn status(self) -> u8
        ensures { result ≡ fault_status self }
    {
        match self {
            Fault::Office(OfficeFault::Memory) => 3,
            Fault::Upload(fault) => match fault.cause {
                UploadCause::Memory => 3,
                _ => 1,
            },
            Fault::Post(PostFault::Full { .. })
            | Fault::Office(_)
            | Fault::TooLarge
            | Fault::List { .. }
            | Fault::NoSuchAccount
            | Fault::NoSuchMonth
            | Fault::NoSuchMeter
            | Fault::NoSuchStore
            | Fault::NotAdopted
            | Fault::NotCarried
            | Fault::NotFree => 1,
            Fault::Store(_)
            | Fault::Unopened(_)
            | Fault::Post(_)
            | Fault::Book(_)
            | Fault::Wire(_)
            | Fault::Device
            | Fault::Memory => 3,
        }
    }
}

/// The fault's lines without their end.
impl fmt::Display for Fault {
    ghost output = { λ told. Some (fault_text told) };

    fn fmt<W: fmt::Write>(&self, f: &mut fmt::Formatter<W>) -> fmt::Result {
        match *self {
            Fault::Office(fault) => write!(f, "{fault}"),
            Fault::TooLarge => write!(f, "body too large"),
            Fault::Upload(fault) => f.write_str(fault.line().as_str()),
            Fault::List { line } => write!(f, "line {line} of the list names no upload"),
            Fault::NoSuchAccount => write!(f, "no such account"),
            Fault::NoSuchMonth => write!(f, "no such month"),
            Fault::NoSuchMeter => write!(f, "no such meter"),
            Fault::NoSuchStore => write!(f, "no such store"),
            Fault::NotAdopted => write!(
                f,
                "the new office file can't be adopted; carry takes the records into a new store"
            ),
            Fault::NotCarried => write!(f, "the new office file can't hold this record"),
            Fault::NotFree => write!(f, "the new store's path isn't free"),
            Fault::Store(fault) => write!(f, "{fault}"),
            Fault::Unopened(cause) => write!(f, "{cause}\ndevice failed"),
            Fault::Post(fault) => f.write_str(fault.line().as_str()),
            Fault::Book(fault) => f.write_str(fault.line().as_str()),
            Fault::Wire(fault) => write!(f, "{fault}"),
            Fault::Device => write!(f, "device failed"),
            Fault::Memory => f.write_str(memory_refused().as_str()),
        }
    }
}

impl From<OfficeFault> for Fault {
    ghost from_gives = { λ given told. told ≡ fault.Office given };

    fn from(fault: OfficeFault) -> Fault {
        Fault::Office(fault)
    }
}

impl From<UploadFault> for Fault {
    ghost from_gives = { λ given told. told ≡ fault.Upload given };

    fn from(fault: UploadFault) -> Fault {
        Fault::Upload(fault)
    }
}

impl From<PostFault> for Fault {
    ghost from_gives = { λ given told. told ≡ fault.Post given };

    fn from(fault: PostFault) -> Fault {
        Fault::Post(fault)
    }
}

impl From<BookFault> for Fault {
    ghost from_gives = { λ given told. told ≡ fault.Book given };

    fn from(fault: BookFault) -> Fault {
        Fault::Book(fault)
    }
}

impl From<AllocError> for Fault {
    ghost from_gives = { λ _ told. told ≡ fault.Memory };

    fn from(_: AllocError) -> Fault {
        Fault::Memory
    }
}

impl<T: Drop> From<AllocFailed<T>> for Fault {
    ghost from_gives = { λ _ told. told ≡ fault.Memory };

    fn from(_: AllocFailed<T>) -> Fault {
        Fault::Memory
    }
}

impl From<Refusal> for Fault {
    ghost from_gives = { λ refusal told. told ≡ fault_of_refusal refusal };

    fn from(refusal: Refusal) -> Fault {
        match refusal {
            Refusal::NoSuchStore => Fault::NoSuchStore,
            Refusal::Memory => Fault::Memory,
            Refusal::Unopened(cause) => Fault::Unopened(cause),
        }
    }
}
