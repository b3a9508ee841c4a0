//! What no rule of settings sees: elements without a topology or a link, and peers that a server could not tell apart.
ghost use Rattle.std.specs.Prelude.{◌≡◌, ◌++◌, ◌<◌, ◌^◌, OnOk, [], length, option_map};
ghost use Rattle.std.specs.List.{list_any};
ghost use Rattle.std.specs.Str.Lines.{lines as lines_of};
ghost use Rattle.network_check.specs.Warnings.{element_warnings, elements_warnings, ends_at, is_alone as is_alone_in, is_joined, is_way, leads_out, link_warning, meets_watch as comes_to_watch, met, met_warning, peer_warnings, peers_warnings, settings_warnings, topology_warning, watch_warning};

use crate::places::{Page, row_line};
use crate::told::{Piece, tell, tell_if};
use disclosure::Class;
use dom_base::{As, NoMemory};
use network_files::{are_alike, comes_to};
use plant_text::{ElementRow, NetworkParts, PeerRow};

// ---- elements

fn is_closed(class: Class) -> bool
    ensures { result ≡ leads_out class }
{
    match class {
        Class::Client { .. } => false,
        Class::Neighbour(_) | Class::Parent => true,
    }
}

// Whether one of these links has an element at an end.
fn has_link(links: &[(As, As)], at: As) -> bool
    ensures { result ≡ list_any (ends_at at) links.now }
{
    links
        .iter()
        .any(|link| link.0.0 == at.0 || link.1.0 == at.0)
}

// Whether an element has one of these peers, and that is no client.
fn has_closed_peer(peers: &[PeerRow], at: As) -> bool
    ensures { result ≡ list_any (is_way at) peers.now }
{
    peers
        .iter()
        .any(|peer| peer.at.0 == at.0 && is_closed(peer.class))
}

fn is_linked(parts: &NetworkParts, element: &ElementRow) -> bool
    ensures { result ≡ is_joined parts.now element.now }
{
    let at = element.own;
    element.parent
        || has_link(parts.links.as_slice(), at)
        || has_closed_peer(parts.peers.as_slice(), at)
}

fn is_alone(parts: &NetworkParts, element: &ElementRow) -> bool
    ensures { result ≡ is_alone_in parts.now element.now }
{
    parts.elements.len() > 1 && !is_linked(parts, element)
}

fn warn_of_topology(
    file: &[u8],
    line: u32,
    element: &ElementRow,
    into: &mut Vec<u8>,
) -> Result<(), NoMemory>
    ensures { OnOk result (into.new.items ≡ into.old.items ++ topology_warning file.now line element.now) }
{
    tell_if(
        element.topology.is_none(),
        file,
        line,
        &[
            Piece::Text(b"warning element of domain "),
            Piece::Number(u64::from(element.own.0)),
            Piece::Text(b" has no topology"),
        ],
        into,
    )
}

fn warn_of_link(
    file: &[u8],
    line: u32,
    parts: &NetworkParts,
    element: &ElementRow,
    into: &mut Vec<u8>,
) -> Result<(), NoMemory>
    ensures { OnOk result (into.new.items ≡ into.old.items ++ link_warning file.now line parts.now element.now) }
{
    tell_if(
        is_alone(parts, element),
        file,
        line,
        &[
            Piece::Text(b"warning element of domain "),
            Piece::Number(u64::from(element.own.0)),
            Piece::Text(b" has no link"),
        ],
        into,
    )
}

fn warn_of_element(
    page: &Page<'_>,
    parts: &NetworkParts,
    index: usize,
    element: &ElementRow,
    into: &mut Vec<u8>,
) -> Result<(), NoMemory>
    requires short { length (lines_of page.now.text.now) < 2 ^ 32 }
    ensures { OnOk result (into.new.items ≡ into.old.items ++ element_warnings page.now.file.now page.now.text.now parts.now index element.now) }
{
    let line = row_line(page.text, b"[[element]]", index);
    warn_of_topology(page.file, line, element, into)?;
    warn_of_link(page.file, line, parts, element, into)
}

fn warn_of_elements(
    page: &Page<'_>,
    parts: &NetworkParts,
    into: &mut Vec<u8>,
) -> Result<(), NoMemory>
    requires short { length (lines_of page.now.text.now) < 2 ^ 32 }
    ensures { OnOk result (into.new.items ≡ into.old.items ++ elements_warnings page.now.file.now page.now.text.now parts.now 0 parts.now.elements) }
{
    let elements = parts.elements.as_slice();
    for i in 0..elements.len() {
        warn_of_element(page, parts, i, &elements[i], into)?;
    }
    Ok(())
}

// ---- peers

// The name of the first of these peers that can't be told from another.
fn first_alike<'a>(before: &'a [PeerRow], row: &PeerRow) -> Option<&'a [u8]>
    ensures { option_map (λ s. s.now) result ≡ met before.now row.now }
{
    for peer in before {
        if are_alike(peer, row) {
            return Some(peer.name.as_str().as_bytes());
        }
    }
    None
}

fn meets_watch(watch: Option<u16>, row: &PeerRow) -> bool
    ensures { result ≡ comes_to_watch watch row.now }
{
    match watch {
        Some(port) => comes_to(row, port),
        None => false,
    }
}

fn warn_of_met<'x>(
    file: &[u8],
    line: u32,
    before: &'x [PeerRow],
    row: &'x PeerRow,
    into: &mut Vec<u8>,
) -> Result<(), NoMemory>
    ensures { OnOk result (into.new.items ≡ into.old.items ++ met_warning file.now line before.now row.now) }
{
    match first_alike(before, row) {
        Some(name) => tell(
            file,
            line,
            &[
                Piece::Text(b"warning serve refuses peer "),
                Piece::Name(row.name.as_str().as_bytes()),
                Piece::Text(b": port "),
                Piece::Number(u64::from(row.port)),
                Piece::Text(b" is that of "),
                Piece::Name(name),
            ],
            into,
        ),
        None => Ok(()),
    }
}

fn warn_of_watch(
    file: &[u8],
    line: u32,
    watch: Option<u16>,
    row: &PeerRow,
    into: &mut Vec<u8>,
) -> Result<(), NoMemory>
    ensures { OnOk result (into.new.items ≡ into.old.items ++ watch_warning file.now line watch row.now) }
{
    tell_if(
        meets_watch(watch, row),
        file,
        line,
        &[
            Piece::Text(b"warning serve refuses peer "),
            Piece::Name(row.name.as_str().as_bytes()),
            Piece::Text(b": port "),
            Piece::Number(u64::from(row.port)),
            Piece::Text(b" is that of watchers"),
        ],
        into,
    )
}

fn warn_of_peer(
    page: &Page<'_>,
    watch: Option<u16>,
    index: usize,
    before: &[PeerRow],
    row: &PeerRow,
    into: &mut Vec<u8>,
) -> Result<(), NoMemory>
    requires short { length (lines_of page.now.text.now) < 2 ^ 32 }
    ensures { OnOk result (into.new.items ≡ into.old.items ++ peer_warnings page.now.file.now page.now.text.now watch index before.now row.now) }
{
    let line = row_line(page.text, b"[[peer]]", index);
    warn_of_met(page.file, line, before, row, into)?;
    warn_of_watch(page.file, line, watch, row, into)
}

fn warn_of_peers(page: &Page<'_>, parts: &NetworkParts, into: &mut Vec<u8>) -> Result<(), NoMemory>
    requires short { length (lines_of page.now.text.now) < 2 ^ 32 }
    ensures { OnOk result (into.new.items ≡ into.old.items ++ peers_warnings page.now.file.now page.now.text.now parts.now.watch [] parts.now.peers) }
{
    let peers = parts.peers.as_slice();
    for i in 0..peers.len() {
        warn_of_peer(page, parts.watch, i, &peers[..i], &peers[i], into)?;
    }
    Ok(())
}

/// Warns of settings that obey the rules.
pub(crate) fn warn_of_settings(
    page: &Page<'_>,
    parts: &NetworkParts,
    into: &mut Vec<u8>,
) -> Result<(), NoMemory>
    requires short { length (lines_of page.now.text.now) < 2 ^ 32 }
    ensures { OnOk result (into.new.items ≡ into.old.items ++ settings_warnings page.now.file.now page.now.text.now parts.now) }
{
    warn_of_elements(page, parts, into)?;
    warn_of_peers(page, parts, into)
}
