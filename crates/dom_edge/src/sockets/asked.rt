//! What the system is asked for: the one place at which it is, each time with the address that the answer stands for.
ghost use Rattle.std.specs.Prelude.{◌≡◌, IfOk};

use std::io;
use std::net::{Net, SocketAddr};
use std::time::Duration;

// A socket that the system gave, and the address that it was asked for. What the system does with it no clause says.
#[derive(Drop)]
pub(super) struct Asked<T: Drop> {
    pub(super) socket: T,
    pub(super) at: SocketAddr,
}

// Listens there.
pub(super) fn bind_at<R: Net>(rt: &R, at: SocketAddr) -> io::Result<Asked<R::Listener>>
    ensures { IfOk result (λ a. a.at ≡ at) }
{
    let socket = rt.bind(at)?;
    Ok(Asked { socket, at })
}

// Dials there, for so long at most.
pub(super) fn connect_at<R: Net>(
    rt: &R,
    at: SocketAddr,
    limit: Duration,
) -> io::Result<Asked<R::Stream>>
    ensures { IfOk result (λ a. a.at ≡ at) }
{
    let socket = rt.connect_timeout(at, limit)?;
    Ok(Asked { socket, at })
}
