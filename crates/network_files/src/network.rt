//! The settings.
ghost use Rattle.std.specs.Prelude.{◌≡◌, ◌∷◌, [], IfOk};
ghost use Rattle.network_files.specs.DrawnSettings.{file_name, element, link, settings};

use dom_base::{Addr, As, List, NoMemory, Text};
use plant_text::{ElementRow, NetError, Network, NetworkParts};
use std::alloc::Global;

fn name_of(domain: u8) -> &'static str
    ensures { result.now ≡ file_name domain }
{
    if domain == 1 {
        return "f1.txt";
    }
    if domain == 2 {
        return "f2.txt";
    }
    if domain == 3 {
        return "f3.txt";
    }
    "f4.txt"
}

/// The name of the file of a domain's topology.
pub(crate) fn file_name(alloc: Global, domain: u8) -> Result<Text, NoMemory>
    ensures { IfOk result (λ name. name ≡ file_name domain) }
{
    Text::copy_of(alloc, name_of(domain))
}

fn element(alloc: Global, domain: u8) -> Result<ElementRow, NoMemory>
    ensures { IfOk result (λ row. row ≡ element domain) }
{
    Ok(ElementRow {
        own: As(u16::from(domain)),
        id: Addr::V4(0xc000_0200 + u32::from(domain)),
        topology: Some(file_name(alloc, domain)?),
        key_life: 600,
        parent: false,
    })
}

fn elements(alloc: Global) -> Result<List<ElementRow>, NoMemory>
    ensures { IfOk result (λ rows. rows ≡ element 1 ∷ element 2 ∷ element 3 ∷ element 4 ∷ []) }
{
    let mut rows = List::new(alloc);
    rows.push(element(alloc, 1)?)?;
    rows.push(element(alloc, 2)?)?;
    rows.push(element(alloc, 3)?)?;
    rows.push(element(alloc, 4)?)?;
    Ok(rows)
}

fn links(alloc: Global) -> Result<List<(As, As)>, NoMemory>
    ensures { IfOk result (λ rows. rows ≡ link 1 ∷ link 2 ∷ link 3 ∷ []) }
{
    let mut rows = List::new(alloc);
    rows.push((As(1), As(2)))?;
    rows.push((As(2), As(3)))?;
    rows.push((As(3), As(4)))?;
    Ok(rows)
}

fn parts(alloc: Global) -> Result<NetworkParts, NoMemory>
    ensures { IfOk result (λ parts. parts ≡ settings) }
{
    Ok(NetworkParts {
        elements: elements(alloc)?,
        links: links(alloc)?,
        peers: List::new(alloc),
        deny: List::new(alloc),
        parent: None,
        parent_links: List::new(alloc),
        workers: 2,
        watch: None,
    })
}

/// The settings of four elements in a row, each of a domain with a file of its own.
pub fn settings(alloc: Global) -> Result<Network, NoMemory>
    ensures { IfOk result (λ network. network ≡ settings) }
{
    match Network::build(alloc, parts(alloc)?) {
        Ok(network) => Ok(network),
        Err(NetError::Fault(_)) => unreachable!(),
        Err(NetError::NoMemory) => Err(NoMemory),
    }
}
