//! The elements of a network, each by its domain.
ghost use Rattle.std.specs.Prelude.{◌≡◌, [], is_some, MatchOption};
ghost use Rattle.std.specs.Option.{option_copied};
ghost use Rattle.plant_text.specs.Names.{same_as};
ghost use Rattle.network_members.specs.Elements.{at_domain, IsFirstAt, IsNowhere};

use dom_base::As;
use pce_element::{Element, World};
use std::alloc::Global;
use std::marker::Model;

/// Elements, each with its domain beside it.
#[derive(Drop)]
pub(crate) struct Elements<W: World> {
    pub(crate) domains: Vec<As>,
    pub(crate) items: Vec<Element<W>>,
}

impl<W: World> Model for Elements<W> {
    ghost use Rattle.std.specs.Prelude.{List};
    ghost use Rattle.pce_element.specs.Seen.{Seen};

    ghost Value = { List (Seen W.Pin W.Segment) };

    ghost use Rattle.network_members.specs.ElementFields.{HoldsDomains};

    ghost view = { λ a. a.items.items };

    ghost invariant = { λ a. HoldsDomains a.domains.items a.items.items };
}

fn is_same(a: As, b: As) -> bool
    ensures { result ≡ same_as a b }
{
    a.0 == b.0
}

// The place of a domain.
pub(crate) fn place_of(domains: &[As], at: As) -> Option<usize>
    ensures { MatchOption result (IsNowhere at domains.now) (λ i. IsFirstAt at i domains.now) }
{
    for i in 0..domains.len() {
        if is_same(domains[i], at) {
            return Some(i);
        }
    }
    None
}

impl<W: World> Elements<W> {
    /// No elements.
    pub fn new(alloc: Global) -> Elements<W>
        ensures { result ≡ [] }
    {
        Elements {
            domains: Vec::new(alloc),
            items: Vec::new(alloc),
        }
    }

    /// The element of a domain.
    pub fn at(&self, at: As) -> Option<&Element<W>>
        ensures { option_copied result ≡ at_domain at self.now }
    {
        match place_of(&self.domains, at) {
            Some(i) => Some(&self.items[i]),
            None => None,
        }
    }

    /// Whether there is an element of a domain; takes no memory.
    pub fn has(&self, at: As) -> bool
        ensures { result ≡ is_some (at_domain at self.now) }
    {
        match self.at(at) {
            Some(_) => true,
            None => false,
        }
    }
}
