//! Settings from their text.
ghost use Rattle.std.specs.Prelude.{◌≡◌, ◌&&◌, Err, IfOk, MatchResult, Some, codes, find, is_none, is_some, not, option_map, string_bytes};
ghost use Rattle.std.specs.BTreeMap.{keys};
ghost use Rattle.std.specs.List.{list_all};
ghost use Rattle.std.specs.Option.{option_copied};
ghost use Rattle.toml.specs.Data.{get_member};
ghost use Rattle.toml.specs.View.{table_view, view};
ghost use Rattle.plant_text.specs.declared.fault.NetFault.{NetFault};
ghost use Rattle.plant_text.specs.SettingsText.{deny_form, element_form, has_only, is_table, link_form, names, parent_id, parent_key, parent_links_of, peer_form, rows_of, sheet_in, top_key, watch_of};
ghost use Rattle.plant_text.specs.Reads.{IsFaulty, IsNoDocument, Reads, document};

use crate::fault::{NetError, NetFault};
use crate::network::Network;
use crate::rows::{Found, rows_at};
use crate::settings::{DenyRow, ElementRow, NetworkParts, PeerRow};
use crate::sheet::{Cuts, Sheet};
use crate::value::{addr_at, has_key, is_one_of, port_at, value_at, whole_or};
use dom_base::{Addr, As, List, NoMemory, ParentLink, Text};
use std::alloc::Global;
use std::str::from_utf8;
use toml::{Table, Value, table_from_str};

/// How many workers solve, where the settings do not say.
const WORKERS: u64 = 2;

// ---- the parent

fn is_parent_key(key: &str) -> bool
    ensures { result ≡ parent_key key.now }
{
    is_one_of(key, &["id", "link"])
}

fn knows_parent_keys(table: &Table) -> bool
    ensures { result ≡ list_all (λ k. parent_key (string_bytes k)) (keys table.now) }
{
    table.keys().all(|key| is_parent_key(key.as_str()))
}

fn has_parent_keys(table: &Table) -> bool
    ensures { result ≡ has_only parent_key (table_view table.now) }
{
    knows_parent_keys(table)
}

fn is_a_table(value: Option<&Value>) -> bool
    ensures { result ≡ is_table (option_map (λ v. view v.now) value.entry) }
{
    match value {
        Some(value) => value.is_table(),
        None => false,
    }
}

fn id_of(value: Option<&Value>) -> Option<Addr>
    ensures { result ≡ parent_id (option_map (λ v. view v.now) value.entry) }
{
    let table = value?.as_table()?;
    if has_parent_keys(table) {
        addr_at(table, "id")
    } else {
        None
    }
}

// Whether the table of the parent is malformed.
fn is_wrong_parent(value: Option<&Value>) -> bool
    ensures { result ≡ (is_table (option_map (λ v. view v.now) value.entry) && is_none (parent_id (option_map (λ v. view v.now) value.entry))) }
{
    is_a_table(value) && id_of(value).is_none()
}

// Whether there is a value that is no table.
fn is_no_table(value: Option<&Value>) -> bool
    ensures { result ≡ (is_some (option_map (λ v. view v.now) value.entry) && not (is_table (option_map (λ v. view v.now) value.entry))) }
{
    value.is_some() && !is_a_table(value)
}

fn parent_links(alloc: Global, value: Option<&Value>) -> Result<Found<ParentLink>, NoMemory>
    ensures { IfOk result (λ found. found ≡ parent_links_of (option_map (λ v. view v.now) value.entry)) }
{
    let none = Found {
        rows: List::new(alloc),
        cut: None,
    };
    match value {
        Some(value) => match value.as_table() {
            Some(table) => rows_at(alloc, table, "link"),
            None => Ok(none),
        },
        None => Ok(none),
    }
}

// ---- names beside the tables

fn is_top_key(key: &str) -> bool
    ensures { result ≡ top_key key.now }
{
    is_one_of(
        key,
        &[
            "element", "link", "peer", "deny", "parent", "workers", "watch",
        ],
    )
}

fn unknown_key(root: &Table) -> Option<&String>
    ensures { option_copied result ≡ find (λ k. not (top_key (string_bytes k))) (keys root.now) }
{
    root.keys().find(|key| !is_top_key(key.as_str()))
}

// The first name that is not known.
fn other_name(alloc: Global, root: &Table) -> Result<Option<Text>, NoMemory>
    ensures { IfOk result (λ other. other ≡ find (λ k. not (top_key k)) (names (table_view root.now))) }
{
    match unknown_key(root) {
        Some(key) => Ok(Some(Text::copy_of(alloc, key.as_str())?)),
        None => Ok(None),
    }
}

// Whether the port of watchers is malformed.
fn is_wrong_watch(root: &Table) -> bool
    ensures { result ≡ (is_some (get_member (codes "watch") (table_view root.now)) && is_none (watch_of (get_member (codes "watch") (table_view root.now)))) }
{
    has_key(root, "watch") && port_at(root, "watch").is_none()
}

// ---- the whole

// The tables of rows.
struct Tables {
    elements: Found<ElementRow>,
    links: Found<(As, As)>,
    peers: Found<PeerRow>,
    deny: Found<DenyRow>,
}

fn tables_of(alloc: Global, root: &Table) -> Result<Tables, NoMemory>
    ensures elements { IfOk result (λ t. t.elements ≡ rows_of element_form (get_member (codes "element") (table_view root.now))) }
    ensures links { IfOk result (λ t. t.links ≡ rows_of link_form (get_member (codes "link") (table_view root.now))) }
    ensures peers { IfOk result (λ t. t.peers ≡ rows_of peer_form (get_member (codes "peer") (table_view root.now))) }
    ensures deny { IfOk result (λ t. t.deny ≡ rows_of deny_form (get_member (codes "deny") (table_view root.now))) }
{
    Ok(Tables {
        elements: rows_at(alloc, root, "element")?,
        links: rows_at(alloc, root, "link")?,
        peers: rows_at(alloc, root, "peer")?,
        deny: rows_at(alloc, root, "deny")?,
    })
}

// The sheet of a document.
fn sheet_of(alloc: Global, root: &Table) -> Result<Sheet, NoMemory>
    ensures { IfOk result (λ sheet. sheet ≡ sheet_in (table_view root.now)) }
{
    let workers = whole_or(root, "workers", u64::from(u32::MAX), WORKERS);
    let watch = port_at(root, "watch");
    let parent = value_at(root, "parent");
    let id = id_of(parent);
    let other = other_name(alloc, root)?;
    let parent_links = parent_links(alloc, parent)?;
    let Tables {
        elements,
        links,
        peers,
        deny,
    } = tables_of(alloc, root)?;
    Ok(Sheet {
        parts: NetworkParts {
            elements: elements.rows,
            links: links.rows,
            peers: peers.rows,
            deny: deny.rows,
            parent: id,
            parent_links: parent_links.rows,
            workers: workers.unwrap_or(WORKERS) as u32,
            watch,
        },
        cuts: Cuts {
            elements: elements.cut,
            links: links.cut,
            peers: peers.cut,
            deny: deny.cut,
            parent: is_wrong_parent(parent),
            no_parent: is_no_table(parent),
            parent_links: parent_links.cut,
            workers: workers.is_none(),
            watch: is_wrong_watch(root),
        },
        other,
    })
}

// The document of a text.
fn document_of(alloc: Global, bytes: &[u8]) -> Result<Table, NetError>
    ensures { MatchResult result (λ root. document bytes.now ≡ Some (table_view root)) (IsNoDocument bytes.now) }
{
    let Ok(text) = from_utf8(bytes) else {
        return Err(NetError::Fault(NetFault::NotToml));
    };
    match table_from_str(alloc, text) {
        Ok(table) => Ok(table),
        Err(error) => {
            if error.is_memory() {
                Err(NetError::NoMemory)
            } else {
                Err(NetError::Fault(NetFault::NotToml))
            }
        }
    }
}

/// The network of a settings text, where it obeys the rules: else `NotToml`, or the first rule that is broken.
pub fn read_network(alloc: Global, bytes: &[u8]) -> Result<Network, NetError>
    ensures ok { IfOk result (Reads bytes.now) }
    ensures refused { (fault : NetFault) → result ≡ Err (NetError.Fault fault) → IsFaulty bytes.now fault }
{
    let root = document_of(alloc, bytes)?;
    let sheet = sheet_of(alloc, &root)?;
    Network::of_sheet(alloc, sheet)
}
