//! What errors of the system's calls say.
ghost use Rattle.std.specs.Prelude.{◌≡◌, ◌⊎◌, ◌↔◌, IsTrue};
ghost use Rattle.std.specs.IoError.{error_kind};

use std::io::{self, ErrorKind};

// The system's numbers of four errors: too many descriptors in this program, too many on this machine, out of memory, no buffer space.
const OUR_OWN: [i32; 4] = [24, 23, 12, 105];

// Whether a call would have waited longer, or a signal cut it short.
pub(super) fn is_quiet(error: &io::Error) -> bool
    ensures { IsTrue result ↔ ((error_kind error.now ≡ ErrorKind.WouldBlock) ⊎ (error_kind error.now ≡ ErrorKind.Interrupted)) }
{
    match error.kind() {
        ErrorKind::WouldBlock | ErrorKind::Interrupted => true,
        _ => false,
    }
}

// Whether a call would have waited longer.
pub(super) fn would_wait(error: &io::Error) -> bool
    ensures { IsTrue result ↔ (error_kind error.now ≡ ErrorKind.WouldBlock) }
{
    match error.kind() {
        ErrorKind::WouldBlock => true,
        _ => false,
    }
}

// The error of a call that would have waited longer.
pub(super) fn quiet() -> io::Error {
    io::Error::from(ErrorKind::WouldBlock)
}

// The error of a growth of memory that was refused.
pub(super) fn no_memory() -> io::Error {
    io::Error::from(ErrorKind::OutOfMemory)
}

// Whether it was this machine that lacked something, and not the other one.
pub(super) fn is_our_own(error: &io::Error) -> bool {
    match error.raw_os_error() {
        Some(number) => OUR_OWN.contains(&number),
        None => error.kind() == ErrorKind::OutOfMemory,
    }
}
