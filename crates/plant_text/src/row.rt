//! The rules of single rows.
ghost use Rattle.std.specs.Prelude.{◌≡◌, ◌==◌, ◌||◌, ◌<◌, ◌≤◌, not, is_some, length};
ghost use Rattle.std.specs.List.{list_any, list_all};
ghost use Rattle.std.specs.Str.{bytes_eq};
ghost use Rattle.dom_base.specs.AddrOrder.{rank};
ghost use Rattle.plant_text.specs.Faults.{first_of};
ghost use Rattle.plant_text.specs.Names.{same_as, same_link};
ghost use Rattle.plant_text.specs.Rules.{is_between, is_domain as is_domain_number, is_letter as is_letter_code, is_digit as is_digit_code, is_name as is_peer_name, is_class as is_class_of_peer, is_v4 as is_fourth, is_metric as is_link_metric, is_link as is_parent_link, has_parent as tells_parent, has_id as is_id_of, is_no_port as is_port_of_none, is_neighbour as is_neighbour_in, is_reached as is_reached_before, leads as leads_to, leads_out as is_class_that_leads, parent_rules, peer_form, repeats_peer as is_peer_again, watch_rules, worker_rules};
ghost use Rattle.plant_text.specs.Settings.{row_of};

use crate::fault::Breach;
use crate::limits::{KEY_LIFE_MAX, NAME_MAX, WORKERS_MAX};
use crate::settings::{DenyRow, ElementRow, PeerRow};
use crate::sheet::Sheet;
use disclosure::Class;
use dom_base::{Addr, As, Link, ParentLink};
use te_links::{METRIC_MAX, SRLGS_MAX};

/// A row of a table, with the rules of that table.
pub(crate) trait Row: Sized {
    ghost use Rattle.std.specs.Prelude.{List};
    ghost use Rattle.plant_text.specs.declared.fault.Breach.{Breach};
    ghost use Rattle.plant_text.specs.declared.sheet.Sheet.{Sheet};
    ghost use Rattle.plant_text.specs.Rules.{Rules};

    ghost rules: { Sheet → List Self → Self → Rules Breach };

    /// The first rule that the row breaks, behind the rows before it.
    fn breach(&self, sheet: &Sheet, before: &[Self]) -> Option<Breach>
        ensures { result ≡ first_of (rules sheet.now before.now self.now) };
}

// The breach of the first test that holds.
pub(crate) fn first(rules: &[(bool, Breach)]) -> Option<Breach>
    ensures { result ≡ first_of rules.now }
{
    for rule in rules {
        if rule.0 {
            return Some(rule.1);
        }
    }
    None
}

fn is_domain(number: As) -> bool
    ensures { result ≡ is_domain_number number }
{
    number.0 != 0
}

fn has_number(elements: &[ElementRow], number: As) -> bool
    ensures { result ≡ list_any (λ (e : ElementRow). same_as e.own number) elements.now }
{
    elements.iter().any(|e| e.own.0 == number.0)
}

pub(crate) fn is_element(elements: &[ElementRow], number: As) -> bool
    ensures { result ≡ is_some (row_of number elements.now) }
{
    has_number(elements, number)
}

// ---- elements

fn has_parent(sheet: &Sheet) -> bool
    ensures { result ≡ tells_parent sheet.now }
{
    match sheet.parts.parent {
        Some(_) => true,
        None => sheet.cuts.parent,
    }
}

fn is_life(ticks: u16) -> bool
    ensures { result ≡ is_between 1 KEY_LIFE_MAX ticks }
{
    1 <= ticks && ticks <= KEY_LIFE_MAX
}

fn repeats_element(before: &[ElementRow], number: As, id: Addr) -> bool
    ensures { result ≡ list_any (λ (e : ElementRow). same_as e.own number || (rank e.id == rank id)) before.now }
{
    before.iter().any(|e| e.own.0 == number.0 || e.id == id)
}

impl Row for ElementRow {
    ghost use Rattle.plant_text.specs.Rules.{element_rules};

    ghost rules = { element_rules };

    fn breach(&self, sheet: &Sheet, before: &[ElementRow]) -> Option<Breach> {
        let is_formed = is_domain(self.own) && is_life(self.key_life);
        first(&[
            (!is_formed, Breach::Shape),
            (
                repeats_element(before, self.own, self.id),
                Breach::Duplicate,
            ),
            (self.parent && !has_parent(sheet), Breach::NoParent),
        ])
    }
}

// ---- links

fn is_same_link(a: As, b: As, c: As, d: As) -> bool
    ensures { result ≡ same_link a b c d }
{
    (a.0 == c.0 && b.0 == d.0) || (a.0 == d.0 && b.0 == c.0)
}

fn repeats_link(before: &[(As, As)], a: As, b: As) -> bool
    ensures { result ≡ list_any (λ (l : As × As). same_link l.0 l.1 a b) before.now }
{
    before.iter().any(|link| is_same_link(link.0, link.1, a, b))
}

impl Row for (As, As) {
    ghost use Rattle.plant_text.specs.Rules.{link_rules};

    ghost rules = { link_rules };

    fn breach(&self, sheet: &Sheet, before: &[(As, As)]) -> Option<Breach> {
        let elements = sheet.parts.elements.as_slice();
        let is_known = is_element(elements, self.0) && is_element(elements, self.1);
        first(&[
            (self.0.0 == self.1.0, Breach::Shape),
            (repeats_link(before, self.0, self.1), Breach::Duplicate),
            (!is_known, Breach::Unknown),
        ])
    }
}

// ---- peers

fn is_letter(c: u8) -> bool
    ensures { result ≡ is_letter_code c }
{
    (b'A' <= c && c <= b'Z') || (b'a' <= c && c <= b'z')
}

fn is_digit(c: u8) -> bool
    ensures { result ≡ is_digit_code c }
{
    b'0' <= c && c <= b'9'
}

fn are_letters_or_digits(name: &[u8]) -> bool
    ensures { result ≡ list_all (λ d. is_letter_code d || is_digit_code d) name.now }
{
    name.iter().all(|c| is_letter(*c) || is_digit(*c))
}

fn is_name(name: &[u8]) -> bool
    ensures { result ≡ is_peer_name name.now }
{
    match name {
        [] => false,
        [first, others @ ..] => {
            is_letter(*first) && are_letters_or_digits(others) && name.len() <= NAME_MAX
        }
    }
}

fn is_class(class: Class) -> bool
    ensures { result ≡ is_class_of_peer class }
{
    match class {
        Class::Client { .. } | Class::Parent => true,
        Class::Neighbour(number) => is_domain(number),
    }
}

fn repeats_name(before: &[PeerRow], name: &[u8]) -> bool
    ensures { result ≡ list_any (λ (p : PeerRow). bytes_eq p.name name.now) before.now }
{
    before.iter().any(|p| p.name.as_str().as_bytes() == name)
}

// Whether paths may go on through peers of a class.
fn leads_out(class: Class) -> bool
    ensures { result ≡ is_class_that_leads class }
{
    match class {
        Class::Client { .. } | Class::Parent => false,
        Class::Neighbour(_) => true,
    }
}

fn is_neighbour(next: As, class: Class) -> bool
    ensures { result ≡ is_neighbour_in next class }
{
    match class {
        Class::Client { .. } | Class::Parent => false,
        Class::Neighbour(number) => number.0 == next.0,
    }
}

// Whether paths of an element go on to a domain through a peer.
fn leads(at: As, next: As, peer: &PeerRow) -> bool
    ensures { result ≡ leads_to at next peer.now }
{
    peer.down && peer.at.0 == at.0 && is_neighbour(next, peer.class)
}

fn is_led(before: &[PeerRow], at: As, next: As) -> bool
    ensures { result ≡ list_any (leads_to at next) before.now }
{
    before.iter().any(|p| leads(at, next, p))
}

// Whether paths to the domain of a neighbour go another way: there is an element, or a peer before.
fn is_reached(sheet: &Sheet, before: &[PeerRow], at: As, class: Class) -> bool
    ensures { result ≡ is_reached_before sheet.now before.now at class }
{
    match class {
        Class::Client { .. } | Class::Parent => false,
        Class::Neighbour(next) => {
            is_element(sheet.parts.elements.as_slice(), next) || is_led(before, at, next)
        }
    }
}

impl PeerRow {
    fn is_formed(&self) -> bool
        ensures { result ≡ peer_form self.now }
    {
        let is_called = is_name(self.name.as_str().as_bytes()) && is_class(self.class);
        is_called && self.port > 0 && (!self.down || leads_out(self.class))
    }

    fn repeats(&self, sheet: &Sheet, before: &[PeerRow]) -> bool
        ensures { result ≡ is_peer_again sheet.now before.now self.now }
    {
        let is_again = self.down && is_reached(sheet, before, self.at, self.class);
        repeats_name(before, self.name.as_str().as_bytes()) || is_again
    }
}

impl Row for PeerRow {
    ghost use Rattle.plant_text.specs.Rules.{peer_rules};

    ghost rules = { peer_rules };

    fn breach(&self, sheet: &Sheet, before: &[PeerRow]) -> Option<Breach> {
        let is_known = is_element(sheet.parts.elements.as_slice(), self.at);
        first(&[
            (!self.is_formed(), Breach::Shape),
            (self.repeats(sheet, before), Breach::Duplicate),
            (!is_known, Breach::Unknown),
        ])
    }
}

// ---- rows of policy

impl Row for DenyRow {
    ghost use Rattle.plant_text.specs.Rules.{deny_rules};

    ghost rules = { deny_rules };

    fn breach(&self, sheet: &Sheet, _before: &[DenyRow]) -> Option<Breach> {
        let is_there = is_element(sheet.parts.elements.as_slice(), self.at);
        first(&[
            (!is_domain(self.deny.next), Breach::Shape),
            (!is_there, Breach::Unknown),
        ])
    }
}

// ---- the parent and its links

// Whether an id is that of the parent.
fn is_parent_id(parent: Option<Addr>, element: &ElementRow) -> bool
    ensures { result ≡ is_id_of parent element.now }
{
    match parent {
        Some(id) => element.id == id,
        None => false,
    }
}

fn is_id_again(elements: &[ElementRow], parent: Option<Addr>) -> bool
    ensures { result ≡ list_any (is_id_of parent) elements.now }
{
    elements.iter().any(|e| is_parent_id(parent, e))
}

/// The first rule that the parent breaks.
pub(crate) fn parent_breach(sheet: &Sheet) -> Option<Breach>
    ensures { result ≡ first_of (parent_rules sheet.now) }
{
    let is_again = is_id_again(sheet.parts.elements.as_slice(), sheet.parts.parent);
    first(&[
        (sheet.cuts.parent || sheet.cuts.no_parent, Breach::Shape),
        (is_again, Breach::Duplicate),
    ])
}

fn is_v4(addr: Addr) -> bool
    ensures { result ≡ is_fourth addr }
{
    match addr {
        Addr::V4(_) => true,
        Addr::V6(_) => false,
    }
}

fn is_metric(value: u32) -> bool
    ensures { result ≡ is_link_metric value }
{
    1 <= value && value <= METRIC_MAX
}

fn is_link(link: &Link) -> bool
    ensures { result ≡ is_parent_link link.now }
{
    let are_fourth = is_v4(link.from) && is_v4(link.to) && is_v4(link.near) && is_v4(link.far);
    are_fourth && is_metric(link.igp) && is_metric(link.te)
}

fn repeats_end(before: &[ParentLink], near: Addr, far: Addr) -> bool
    ensures { result ≡ list_any (λ (p : ParentLink). (rank p.link.near == rank near) || (rank p.link.far == rank far)) before.now }
{
    before
        .iter()
        .any(|p| p.link.near == near || p.link.far == far)
}

impl Row for ParentLink {
    ghost use Rattle.plant_text.specs.Rules.{parent_link_rules};

    ghost rules = { parent_link_rules };

    fn breach(&self, _sheet: &Sheet, before: &[ParentLink]) -> Option<Breach> {
        let is_formed = is_domain(self.from_as) && is_domain(self.to_as) && is_link(&self.link);
        first(&[
            (self.link.srlgs.len() > SRLGS_MAX, Breach::TooMany),
            (!is_formed, Breach::Shape),
            (
                repeats_end(before, self.link.near, self.link.far),
                Breach::Duplicate,
            ),
        ])
    }
}

// ---- the number of workers

fn are_workers(count: u32) -> bool
    ensures { result ≡ is_between 1 WORKERS_MAX count }
{
    1 <= count && count <= WORKERS_MAX
}

/// The first rule that the number of workers breaks.
pub(crate) fn worker_breach(sheet: &Sheet) -> Option<Breach>
    ensures { result ≡ first_of (worker_rules sheet.now) }
{
    first(&[
        (sheet.cuts.workers, Breach::Shape),
        (!are_workers(sheet.parts.workers), Breach::Shape),
    ])
}

// ---- the port of watchers

fn is_no_port(watch: Option<u16>) -> bool
    ensures { result ≡ is_port_of_none watch }
{
    match watch {
        Some(port) => port == 0,
        None => false,
    }
}

/// The first rule that the port of watchers breaks.
pub(crate) fn watch_breach(sheet: &Sheet) -> Option<Breach>
    ensures { result ≡ first_of (watch_rules sheet.now) }
{
    first(&[
        (sheet.cuts.watch, Breach::Shape),
        (is_no_port(sheet.parts.watch), Breach::Shape),
    ])
}
