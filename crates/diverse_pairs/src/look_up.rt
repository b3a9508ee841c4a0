//! Look-ups in the rows of a certificate.
ghost use Rattle.std.specs.Prelude.{◌≡◌, ◌++◌, ◌↔◌, Contains, IsTrue};
ghost use Rattle.diverse_pairs.specs.Potentials.{potential_in, AreRising};

use dom_base::{Addr, said_of, stands};

/// Whether a far address stands in one of two lists.
pub(crate) fn is_in_use(first: &[Addr], second: &[Addr], far: Addr) -> bool
    ensures { IsTrue result ↔ Contains (first.now ++ second.now) far }
{
    let in_first = stands(first, far);
    let in_second = stands(second, far);
    in_first || in_second
}

/// The potential of an address among rows in rising order.
pub(crate) fn potential_of(rows: &[(Addr, u64)], node: Addr) -> u64
    requires { AreRising rows.now }
    ensures { result ≡ potential_in rows.now node }
{
    said_of(rows, 0, node)
}
