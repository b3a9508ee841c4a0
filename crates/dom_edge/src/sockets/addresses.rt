//! The system's addresses and those of this program, both ways.
ghost use Rattle.std.specs.Prelude.{◌≡◌};
ghost use Rattle.dom_edge.specs.Sockets.{addr_of, IsIpOf};

use dom_base::Addr;
use std::net::{IpAddr, Ipv4Addr, Ipv6Addr};

// An address of the system as a number of its kind.
pub(super) fn addr_of_ip(ip: IpAddr) -> Addr
    ensures { result ≡ addr_of ip }
{
    match ip {
        IpAddr::V4(ip) => Addr::V4(ip.to_bits()),
        IpAddr::V6(ip) => Addr::V6(ip.to_bits()),
    }
}

// An address as the system takes it.
pub(super) fn ip_of_addr(addr: Addr) -> IpAddr
    ensures { IsIpOf addr result }
{
    match addr {
        Addr::V4(number) => IpAddr::V4(Ipv4Addr::from_bits(number)),
        Addr::V6(number) => IpAddr::V6(Ipv6Addr::from_bits(number)),
    }
}
