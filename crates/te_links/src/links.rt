//! A topology as a search sees it.
ghost use Rattle.std.specs.Prelude.{◌≡◌, ◌<◌, ℕ, length, slice_get, Contains, Some, MatchOption};
ghost use Rattle.te_links.specs.Rows.{Rows, IsTopology, IsInOrder};
ghost use Rattle.te_links.specs.Index.{IsLinksInto, IsLinksFrom};
ghost use Rattle.te_links.specs.Arrivals.{AreArrivals};
ghost use Rattle.te_links.specs.Reads.{RoseBy, RoseByOne};

use crate::arrivals::Arrivals;
use crate::rows::OutLink;
use dom_base::{Addr, Link};

/// The rows of a topology, as a search sees them. An inner link is seen through `read_into`,
/// `link_at` and `link_with_head` alone, which count. Results live as long as the topology, and do
/// not borrow the value.
pub trait Links<'a> {
    /// The topology, which no call changes.
    ghost rows: { Self → Rows };

    /// How often a link was read.
    ghost reads: { Self → ℕ };

    fn node_count(&self) -> u32
        ensures count { result ≡ length (rows self.now).nodes }
        ensures rules { IsTopology (rows self.now) }
        ensures order { IsInOrder (rows self.now) };

    fn link_count(&self) -> u32
        ensures count { result ≡ length (rows self.now).links }
        ensures rules { IsTopology (rows self.now) }
        ensures order { IsInOrder (rows self.now) };

    fn out_count(&self) -> u32
        ensures count { result ≡ length (rows self.now).outs }
        ensures rules { IsTopology (rows self.now) }
        ensures order { IsInOrder (rows self.now) };

    fn node_at(&self, i: u32) -> Addr
        requires { i < length (rows self.now).nodes }
        ensures { slice_get (rows self.now).nodes i ≡ Some result };

    /// The place of a node; none where the address is no node.
    fn find_node(&self, addr: Addr) -> Option<u32>
        ensures { MatchOption result (¬ Contains (rows self.now).nodes addr) (λ i. slice_get (rows self.now).nodes i ≡ Some addr) };

    /// The places of the links that end at a node, in the order of their far addresses.
    fn links_into(&self, node: u32) -> &'a [u32]
        requires { node < length (rows self.now).nodes }
        ensures { IsLinksInto (rows self.now).nodes (rows self.now).links node result.now };

    /// The places of the links that begin at a node, in the order of their far addresses.
    fn links_from(&self, node: u32) -> &'a [u32]
        requires { node < length (rows self.now).nodes }
        ensures places { IsLinksFrom (rows self.now).nodes (rows self.now).links node result.now }
        ensures rules { IsTopology (rows self.now) }
        ensures order { IsInOrder (rows self.now) };

    fn out_at(&self, i: u32) -> &'a OutLink
        requires { i < length (rows self.now).outs }
        ensures { slice_get (rows self.now).outs i ≡ Some result.now };

    /// Reads the links into a node, all at once: the count of reads rises by their number.
    fn read_into(&mut self, node: u32) -> Arrivals<'a>
        requires { node < length (rows self.old).nodes }
        ensures arrivals { AreArrivals (rows self.old) node result }
        ensures same { rows self.new ≡ rows self.old }
        ensures counted { RoseBy (length result.places) (reads self.old) (reads self.new) };

    /// Reads an inner link, which raises the count of reads by one.
    fn link_at(&mut self, i: u32) -> &'a Link
        requires { i < length (rows self.old).links }
        ensures link { slice_get (rows self.old).links i ≡ Some result.now }
        ensures same { rows self.new ≡ rows self.old }
        ensures counted { RoseByOne (reads self.old) (reads self.new) };

    /// Reads an inner link as `link_at` does, with the place of the node that it ends at.
    fn link_with_head(&mut self, i: u32) -> (&'a Link, u32)
        requires { i < length (rows self.old).links }
        ensures link { slice_get (rows self.old).links i ≡ Some result.0.now }
        ensures head { slice_get (rows self.old).nodes result.1 ≡ Some result.0.now.to }
        ensures same { rows self.new ≡ rows self.old }
        ensures counted { RoseByOne (reads self.old) (reads self.new) };
}
