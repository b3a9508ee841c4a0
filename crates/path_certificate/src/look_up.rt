//! The label of a node among rows in order.
ghost use Rattle.std.specs.Prelude.{◌≡◌, ◌<◌, AllPairs};
ghost use Rattle.dom_base.specs.AddrOrder.{rank};
ghost use Rattle.path_certificate.specs.Rows.{label_in};

use dom_base::{Addr, Label, said_of};

/// The label of an address among rows in rising order.
pub(crate) fn label_of(rows: &[(Addr, Option<Label>)], node: Addr) -> Option<Label>
    requires { AllPairs (λ a b. rank a.0 < rank b.0) rows.now }
    ensures { result ≡ label_in rows.now node }
{
    said_of(rows, None, node)
}
