//! The links into a node, read all at once.
ghost use Rattle.std.specs.Prelude.{◌≡◌, ◌<◌, ℕ, length, slice_get, All, Some};

use dom_base::Link;
use std::marker::Model;

/// What most steps of a search ask of a link: the place of the node that it begins at, and its
/// metrics.
#[derive(Clone, Copy)]
pub struct Arc {
    pub tail: u32,
    pub igp: u32,
    pub te: u32,
}

/// The links into a node in the order of their far addresses, all of which count as read. No other
/// row is to be had of it. What is handed out lives as long as the topology.
#[derive(Drop)]
pub struct Arrivals<'a> {
    rows: &'a [Link],
    places: &'a [u32],
    arcs: &'a [Arc],
}

impl<'a> Model for Arrivals<'a> {
    ghost use Rattle.std.specs.Prelude.{◌≡◌, ◌<◌, length, All};
    ghost use Rattle.te_links.specs.Arrivals.{Arrived};

    ghost Value = { Arrived };

    ghost view = { λ s. record { links = s.rows.now; places = s.places.now; arcs = s.arcs.now } };

    ghost invariant = { λ s. (length s.arcs.now ≡ length s.places.now) × All (λ p. p < length s.rows.now) s.places.now };
}

// The place, the arc and the row at a place of a list.
fn place_in(places: &[u32], k: usize) -> u32
    requires { k < length places.now }
    ensures { slice_get places.now k ≡ Some result }
{
    places[k]
}

fn arc_in(arcs: &[Arc], k: usize) -> Arc
    requires { k < length arcs.now }
    ensures { slice_get arcs.now k ≡ Some result }
{
    arcs[k]
}

fn row_in(rows: &[Link], place: u32) -> &Link
    requires { place < length rows.now }
    ensures { slice_get rows.now place ≡ Some result.now }
{
    &rows[place as usize]
}

impl<'a> Arrivals<'a> {
    pub(crate) fn of(rows: &'a [Link], places: &'a [u32], arcs: &'a [Arc]) -> Arrivals<'a>
        requires each { length arcs.now ≡ length places.now }
        requires within { All (λ p. p < length rows.now) places.now }
        ensures links { result.links ≡ rows.now }
        ensures places { result.places ≡ places.now }
        ensures arcs { result.arcs ≡ arcs.now }
    {
        Arrivals { rows, places, arcs }
    }

    /// How many links there are.
    pub fn len(&self) -> usize
        ensures { result ≡ length self.now.places }
    {
        self.places.len()
    }

    /// The place of a link of these among all inner links.
    pub fn place(&self, k: usize) -> u32
        requires { k < length self.now.places }
        ensures { slice_get self.now.places k ≡ Some result }
    {
        place_in(self.places, k)
    }

    /// What most steps of a search ask of a link of these.
    pub fn arc(&self, k: usize) -> Arc
        requires { k < length self.now.places }
        ensures { slice_get self.now.arcs k ≡ Some result }
    {
        arc_in(self.arcs, k)
    }

    /// The whole row of a link of these.
    pub fn row(&self, k: usize) -> &'a Link
        requires { k < length self.now.places }
        ensures { (p : ℕ) → slice_get self.now.places k ≡ Some p → slice_get self.now.links p ≡ Some result.now }
    {
        row_in(self.rows, place_in(self.places, k))
    }
}
