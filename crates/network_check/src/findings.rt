//! What is told of a network's files.
ghost use Rattle.std.specs.Prelude.{◌≡◌, ◌<◌, ◌≤◌, ◌^◌, ◌++◌, All, IfOk, OnOk, length};
ghost use Rattle.std.specs.Str.Lines.{lines as lines_of};
ghost use Rattle.toml.specs.View.{table_view};
ghost use Rattle.network_check.specs.declared.looks.Seen.{Seen};
ghost use Rattle.network_check.specs.Compare.{IsShort};
ghost use Rattle.network_check.specs.Findings.{AreFound, IsReport, IsShortText, faulty_text, findings_text, has_fault as has_fault_at, is_faulty as are_faulty, rows_of, settings_text};
ghost use Rattle.network_check.specs.Looks.{AreSeen};

use crate::clashes::{Broken, tell_clashes};
use crate::compare::{has_fault, tell_of_topologies};
use crate::looks::{Seen, Settings, look_at_rows, look_at_settings};
use crate::places::Page;
use crate::settings::{tell_fault, tell_tables};
use crate::told::{Piece, tell};
use crate::warnings::warn_of_settings;
use dom_base::{Bytes, List, NoMemory};
use dom_edge::Store;
use plant_text::NetFault;
use std::alloc::Global;
use toml::Table;

/// What is told, and whether a file is at fault.
#[derive(Drop)]
pub struct Report {
    pub text: Bytes,
    pub is_faulty: bool,
}

/// What the files of a network were found to be: its settings, and the topologies that these name.
#[derive(Drop)]
pub struct Findings {
    pub settings: Settings,
    pub seen: List<Seen>,
}

// Reads the topologies that settings name.
fn look_behind<S: Store>(
    alloc: Global,
    store: &mut S,
    settings: &Settings,
) -> Result<List<Seen>, NoMemory>
    ensures seen { IfOk result (AreSeen (S.files store.old) (rows_of settings.now) (S.faults store.old, S.faults store.new)) }
    ensures files { S.files store.new ≡ S.files store.old }
    ensures later { S.faults store.old ≤ S.faults store.new }
{
    match settings {
        Settings::Sound(_, network) => {
            let parts = network.parts();
            look_at_rows(alloc, store, parts.elements.as_slice())
        }
        Settings::Faulty(_, _, _)
        | Settings::NoDocument(_)
        | Settings::Unread
        | Settings::TooLong => Ok(List::new(alloc)),
    }
}

fn look<S: Store>(alloc: Global, store: &mut S, net: &str) -> Result<Findings, NoMemory>
    ensures found { IfOk result (AreFound (S.files store.old) net.now (S.faults store.old, S.faults store.new)) }
    ensures files { S.files store.new ≡ S.files store.old }
    ensures later { S.faults store.old ≤ S.faults store.new }
{
    let settings = look_at_settings(alloc, store, net)?;
    let seen = look_behind(alloc, store, &settings)?;
    Ok(Findings { settings, seen })
}

// Settings at fault, which are this document: the first rule that they break, the keys of all rows, and each other rule about rows
// beside one another.
fn tell_faulty(
    alloc: Global,
    page: &Page<'_>,
    root: &Table,
    first: &NetFault,
    into: &mut Vec<u8>,
) -> Result<(), NoMemory>
    requires short { length (lines_of page.now.text.now) < 2 ^ 32 }
    ensures { OnOk result (into.new.items ≡ into.old.items ++ faulty_text page.now.file.now page.now.text.now first.now (table_view root.now)) }
{
    tell_fault(alloc, page, root, first, into)?;
    tell_tables(alloc, page, root, into)?;
    let broken = Broken {
        page: *page,
        root,
        first,
    };
    tell_clashes(alloc, &broken, into)
}

fn tell_settings(
    alloc: Global,
    net: &[u8],
    settings: &Settings,
    into: &mut Vec<u8>,
) -> Result<(), NoMemory>
    requires short { IsShortText settings.now }
    ensures { OnOk result (into.new.items ≡ into.old.items ++ settings_text net.now settings.now) }
{
    match settings {
        Settings::Sound(text, network) => {
            let page = Page {
                file: net,
                text: text.as_slice(),
            };
            warn_of_settings(&page, network.parts(), into)
        }
        Settings::Faulty(text, root, fault) => {
            let page = Page {
                file: net,
                text: text.as_slice(),
            };
            tell_faulty(alloc, &page, root, fault, into)
        }
        Settings::NoDocument(line) => tell(net, *line, &[Piece::Text(b"not toml")], into),
        Settings::Unread => tell(net, 0, &[Piece::Text(b"read fault")], into),
        Settings::TooLong => tell(net, 0, &[Piece::Text(b"too large")], into),
    }
}

fn are_at_fault(settings: &Settings) -> bool
    ensures { result ≡ are_faulty settings.now }
{
    match settings {
        Settings::Sound(_, _) => false,
        Settings::Faulty(_, _, _)
        | Settings::NoDocument(_)
        | Settings::Unread
        | Settings::TooLong => true,
    }
}

fn tell_findings(
    alloc: Global,
    net: &[u8],
    findings: &Findings,
    into: &mut Vec<u8>,
) -> Result<(), NoMemory>
    requires settings { IsShortText findings.now.settings }
    requires seen { All (λ (s : Seen). IsShort s.look) findings.now.seen }
    ensures { OnOk result (into.new.items ≡ into.old.items ++ findings_text net.now findings.now) }
{
    tell_settings(alloc, net, &findings.settings, into)?;
    tell_of_topologies(alloc, findings.seen.as_slice(), into)
}

fn is_at_fault(findings: &Findings) -> bool
    ensures { result ≡ has_fault_at findings.now }
{
    are_at_fault(&findings.settings) || has_fault(findings.seen.as_slice())
}

/// Reads the settings in a file and the topologies that they name, and tells of each file that is at fault, and of what no rule
/// sees. A file that is not to be had is at fault; the store keeps its files.
#[tactic(auto, using(crate::proofs::Shortness::settings_short, crate::proofs::Shortness::looks_short))]
pub fn check<S: Store>(alloc: Global, store: &mut S, net: &str) -> Result<Report, NoMemory>
    ensures report { IfOk result (IsReport (S.files store.old) net.now (S.faults store.old, S.faults store.new)) }
    ensures files { S.files store.new ≡ S.files store.old }
    ensures later { S.faults store.old ≤ S.faults store.new }
{
    let findings = look(alloc, store, net)?;
    let mut text = Vec::new(alloc);
    tell_findings(alloc, net.as_bytes(), &findings, &mut text)?;
    Ok(Report {
        text: Bytes::from_vec(text),
        is_faulty: is_at_fault(&findings),
    })
}
