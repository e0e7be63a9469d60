//! Connections are accepted, one after the other.

ghost use Rattle.std.specs.Prelude.{◌≡◌, IfErr};

use crate::fault::Fault;
use pw_sockets::{Hindrance, PAUSE, hindrance_of};
use std::net::{TcpListener, TcpStream};
use std::thread;
use std::time::{Clock, Duration};

// The next connection. One that is gone before it is accepted isn't waited for; where no descriptor or memory is free,
// there is another try behind a tenth of a second, as often as it takes (up to 2^64 times); else `Device`.
pub(crate) fn next_connection<R: Clock>(
    clock: &R,
    listener: &TcpListener,
) -> Result<TcpStream, Fault>
    ensures { IfErr result (λ fault. fault ≡ Fault.Device) }
{
    for _ in 0..u64::MAX {
        let error = match listener.accept() {
            Ok((stream, _)) => return Ok(stream),
            Err(error) => error,
        };
        match hindrance_of(error.raw_os_error().unwrap_or(0).unsigned_abs()) {
            Hindrance::Gone => {}
            Hindrance::Short => thread::sleep(clock, Duration::from_millis(PAUSE)),
            Hindrance::Broken => return Err(Fault::Device),
        }
    }
    Err(Fault::Device)
}
