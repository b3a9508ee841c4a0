//! Places of addresses in a sorted list: first a guess, then a search.
ghost use Rattle.std.specs.Prelude.{◌≡◌, ◌<◌, ◌≤◌, ℕ, length, slice_get, AllPairs, Contains, Some, IsTrue, MatchOption};
ghost use Rattle.dom_base.specs.AddrOrder.{rank};
ghost use Rattle.te_links.specs.Index.{IsLinkAt};

use crate::NODES_MAX;
use dom_base::{Addr, Link};
use std::alloc::{AllocError, Global};

// How many slots of the table there are for each address: fewer than one in eight then share theirs.
const SLOTS: usize = 4;

/// Guesses the place of an address in a sorted list, by a hash of it. A guess may be wrong, so the
/// caller compares.
#[derive(Drop)]
pub(crate) struct Hints {
    slots: Vec<u16>,
}

// The slot of an address: its last 32 bits, scattered, say how far along the table.
fn slot_of(addr: Addr, slots: usize) -> usize {
    let low = match addr {
        Addr::V4(number) => number as u64,
        Addr::V6(number) => (number % 4_294_967_296) as u64,
    };
    let scattered = low.wrapping_mul(2_654_435_761) % 4_294_967_296;
    (scattered.wrapping_mul(slots as u64) >> 32) as usize
}

impl Hints {
    /// No guesses; takes no memory.
    pub(crate) fn none(alloc: Global) -> Hints {
        Hints {
            slots: Vec::new(alloc),
        }
    }

    /// Guesses for these addresses, or for the first of them where there are too many.
    pub(crate) fn of(alloc: Global, addrs: &[Addr]) -> Result<Hints, AllocError> {
        let most = addrs.len().min(NODES_MAX);
        let mut slots = vec![in alloc; 0; most * SLOTS]?;
        for place in 0..most {
            let slot = slot_of(addrs[place], slots.len());
            if let Some(hint) = slots.get_mut(slot) {
                *hint = place as u16;
            }
        }
        Ok(Hints { slots })
    }

    // Where an address may stand.
    fn guess(&self, addr: Addr) -> usize {
        let slot = slot_of(addr, self.slots.len());
        match self.slots.get(slot) {
            Some(hint) => *hint as usize,
            None => 0,
        }
    }
}

// The place of an address, by a search.
fn place_of(addrs: &[Addr], addr: Addr) -> Option<usize>
    requires { AllPairs (λ a b. rank a ≤ rank b) addrs.now }
    ensures { MatchOption result (¬ Contains addrs.now addr) (λ i. slice_get addrs.now i ≡ Some addr) }
{
    match addrs.binary_search(&addr) {
        Ok(place) => Some(place),
        Err(_) => None,
    }
}

// Whether two addresses are one.
#[tactic(auto, using(dom_base::proofs::Ranks::same_addr))]
fn is_same(one: Addr, other: Addr) -> bool
    ensures { IsTrue result → one ≡ other }
{
    one == other
}

// Whether an address stands at a place.
fn stands_at(addrs: &[Addr], place: usize, addr: Addr) -> bool
    requires { place < length addrs.now }
    ensures { IsTrue result → slice_get addrs.now place ≡ Some addr }
{
    is_same(addrs[place], addr)
}

/// The place of an address among addresses in order.
pub(crate) fn place_near(addrs: &[Addr], hints: &Hints, addr: Addr) -> Option<usize>
    requires { AllPairs (λ a b. rank a ≤ rank b) addrs.now }
    ensures { MatchOption result (¬ Contains addrs.now addr) (λ i. slice_get addrs.now i ≡ Some addr) }
{
    let guess = hints.guess(addr);
    if guess < addrs.len() && stands_at(addrs, guess, addr) {
        return Some(guess);
    }
    place_of(addrs, addr)
}

/// The place of a link among links in the order of their far addresses.
pub(crate) fn place_of_far(links: &[Link], far: Addr) -> Option<usize>
    requires { AllPairs (λ l m. rank l.far < rank m.far) links.now }
    ensures { MatchOption result ((i : ℕ) → ¬ IsLinkAt links.now far i) (IsLinkAt links.now far) }
{
    match links.binary_search_by_key(&far, |link| link.far) {
        Ok(place) => Some(place),
        Err(_) => None,
    }
}
