//! The elements of a network that is made anew.
ghost use Rattle.std.specs.Prelude.{◌≡◌, ◌<◌, ◌^◌, length, IfOk};
ghost use Rattle.plant_text.specs.Names.{same_as};
ghost use Rattle.plant_text.specs.Settings.{elements_of, life, adjacencies, row_of};
ghost use Rattle.pce_common.specs.plant_model.Settings.{place};
ghost use Rattle.network_links.specs.Adjacencies.{are_adjacencies, others};
ghost use Rattle.pce_element.specs.Seen.{IsNew};
ghost use Rattle.network_members.specs.Fresh.{AreNew, LivesFit, figures_from};

use crate::elements::Elements;
use dom_base::{Addr, As, NoMemory};
use network_links::{deny_at, elements_of, others_along, routes_of};
use pce_element::{Element, World};
use plant_text::{ElementRow, NetworkParts};
use std::alloc::Global;

/// The settings of one element.
#[derive(Clone, Copy)]
pub(crate) struct Figures {
    pub id: Addr,
    pub key_life: u16,
    pub parent: bool,
}

fn is_own(row: &ElementRow, own: As) -> bool
    ensures { result ≡ same_as row.now.own own }
{
    row.own.0 == own.0
}

// A domain that no row names has no address, and keys that live as long as by default.
fn figures_of(rows: &[ElementRow], own: As) -> Figures
    ensures { result ≡ figures_from (row_of own rows.now) }
{
    for row in rows {
        if is_own(row, own) {
            return Figures {
                id: row.id,
                key_life: row.key_life,
                parent: row.parent,
            };
        }
    }
    Figures {
        id: Addr::V4(0),
        key_life: 600,
        parent: false,
    }
}

fn element_of<W: World>(
    alloc: Global,
    parts: &NetworkParts,
    inner: &[(As, As)],
    own: As,
) -> Result<Element<W>, NoMemory>
    requires lives { LivesFit parts.now }
    requires adjacencies { are_adjacencies inner.now ≡ adjacencies parts.now }
    requires peers { length parts.now.peers < 2 ^ 32 }
    ensures { IfOk result (IsNew W.first (place parts.now own) (life parts.now own) (others own (adjacencies parts.now))) }
{
    let figures = figures_of(parts.elements.as_slice(), own);
    let deny = deny_at(alloc, own, parts.deny.as_slice())?;
    let links = others_along(alloc, own, inner)?;
    let routes = routes_of(alloc, own, parts.peers.as_slice())?;
    Element::new(
        alloc,
        own,
        figures.id,
        figures.key_life,
        figures.parent,
        links.as_slice(),
        deny,
        routes,
    )
}

fn each_element<W: World>(
    alloc: Global,
    parts: &NetworkParts,
    inner: &[(As, As)],
    domains: &[As],
) -> Result<Vec<Element<W>>, NoMemory>
    requires lives { LivesFit parts.now }
    requires adjacencies { are_adjacencies inner.now ≡ adjacencies parts.now }
    requires peers { length parts.now.peers < 2 ^ 32 }
    ensures { IfOk result (λ items. AreNew W.first parts.now domains.now items.items) }
{
    let mut items = Vec::new(alloc);
    for own in domains {
        items.push(element_of(alloc, parts, inner, *own)?)?;
    }
    Ok(items)
}

impl<W: World> Elements<W> {
    /// The elements of a network with these settings and these inner links, without requests and keys, in
    /// the order of their domains.
    pub fn of(
        alloc: Global,
        parts: &NetworkParts,
        inner: &[(As, As)],
    ) -> Result<Elements<W>, NoMemory>
        requires lives { LivesFit parts.now }
        requires adjacencies { are_adjacencies inner.now ≡ adjacencies parts.now }
        requires peers { length parts.now.peers < 2 ^ 32 }
        ensures { IfOk result (AreNew W.first parts.now (elements_of parts.now.elements)) }
    {
        let domains = elements_of(alloc, parts.elements.as_slice())?.into_vec();
        let items = each_element(alloc, parts, inner, &domains)?;
        Ok(Elements { domains, items })
    }
}
