//! The rules of a topology, tested row by row.
ghost use Rattle.std.specs.Prelude.{◌≡◌, ◌⊎◌, ◌≤◌, ◌<◌, ◌^◌, length, take, slice_get, AllPairs, Contains, Some, MatchResult};
ghost use Rattle.std.specs.Bool.{Decides};
ghost use Rattle.dom_base.specs.AddrOrder.{rank};
ghost use Rattle.te_links.specs.Rows.{IsMetric, IsForeign, IsTopology, FewEntries};
ghost use Rattle.te_links.specs.Faults.{Breaks, HasBadMetric, IsReason, rows_of_parts};
ghost use Rattle.te_links.specs.Survey.{IsSurvey};
ghost use Rattle.te_links.specs.Checks.{IsFirstRule, NoneOf, IsReasonOf, first_broken};

use crate::fault::{BuildError, Row, RowKind, TopoFault};
use crate::places::{Hints, place_near};
use crate::rows::{Entry, Parts};
use crate::survey::Survey;
use crate::{ENTRIES_MAX, LINKS_MAX, METRIC_MAX, NODES_MAX, OUTS_MAX, SRLGS_MAX};
use dom_base::{Addr, As, Link};

fn refusal(fault: TopoFault, kind: RowKind, index: usize) -> BuildError
    requires { index < 2 ^ 32 }
    ensures { result ≡ BuildError.Rule fault (record { kind = kind; index = index }) }
{
    BuildError::Rule(
        fault,
        Row {
            kind,
            index: index as u32,
        },
    )
}

// Which rules a row breaks; a rule that is not of its kind is never broken.
#[derive(Clone, Copy)]
struct Broken {
    too_many: bool,
    duplicate_node: bool,
    unknown_node: bool,
    own_as: bool,
    bad_metric: bool,
    duplicate_near: bool,
    duplicate_far: bool,
    duplicate_entry: bool,
}

// The first of the rules that a row breaks.
fn first_rule(broken: Broken) -> Option<TopoFault>
    ensures { result ≡ first_broken broken }
{
    if broken.too_many {
        Some(TopoFault::TooMany)
    } else if broken.duplicate_node {
        Some(TopoFault::DuplicateNode)
    } else if broken.unknown_node {
        Some(TopoFault::UnknownNode)
    } else if broken.own_as {
        Some(TopoFault::OwnAs)
    } else if broken.bad_metric {
        Some(TopoFault::BadMetric)
    } else if broken.duplicate_near {
        Some(TopoFault::DuplicateNear)
    } else if broken.duplicate_far {
        Some(TopoFault::DuplicateFar)
    } else if broken.duplicate_entry {
        Some(TopoFault::DuplicateEntry)
    } else {
        None
    }
}

fn is_metric(value: u32) -> bool
    ensures { Decides result (IsMetric value) }
{
    1 <= value && value <= METRIC_MAX
}

fn has_bad_metric(link: &Link) -> bool
    ensures { Decides result (HasBadMetric link.now) }
{
    !is_metric(link.igp) || !is_metric(link.te)
}

fn is_foreign(own: As, other: As) -> bool
    ensures { Decides result (IsForeign own other) }
{
    other != own && other.0 >= 1
}

fn is_node(nodes: &[Addr], hints: &Hints, addr: Addr) -> bool
    requires { AllPairs (λ a b. rank a ≤ rank b) nodes.now }
    ensures { Decides result (Contains nodes.now addr) }
{
    place_near(nodes, hints, addr).is_some()
}

// Whether an inner link is past the limit, or has too many shared risk groups.
fn is_link_past(link: &Link, i: usize) -> bool
    ensures { Decides result ((LINKS_MAX ≤ i) ⊎ (SRLGS_MAX < length link.now.srlgs)) }
{
    i >= LINKS_MAX || link.srlgs.len() > SRLGS_MAX
}

fn has_unknown_end(nodes: &[Addr], hints: &Hints, link: &Link) -> bool
    requires { AllPairs (λ a b. rank a ≤ rank b) nodes.now }
    ensures { Decides result ((¬ Contains nodes.now link.now.from) ⊎ (¬ Contains nodes.now link.now.to)) }
{
    !is_node(nodes, hints, link.from) || !is_node(nodes, hints, link.to)
}

// The first rule that an inner link breaks.
fn link_fault(parts: &Parts, survey: &Survey, i: usize) -> Option<TopoFault>
    requires inside { i < length parts.now.links }
    requires survey { IsSurvey (rows_of_parts parts.now) survey.now }
    ensures { IsFirstRule (Breaks (rows_of_parts parts.now) RowKind.Link i) result }
{
    let link = &parts.links.as_slice()[i];
    first_rule(Broken {
        too_many: is_link_past(link, i),
        duplicate_node: false,
        unknown_node: has_unknown_end(&survey.nodes, &survey.hints, link),
        own_as: false,
        bad_metric: has_bad_metric(link),
        duplicate_near: survey.same_near[i] > 0,
        duplicate_far: survey.same_far[i] > 0,
        duplicate_entry: false,
    })
}

// Whether an out link is past a limit, or has too many shared risk groups.
fn is_out_past(link: &Link, i: usize, tails_end: usize) -> bool
    ensures { Decides result ((OUTS_MAX ≤ i) ⊎ (SRLGS_MAX < length link.now.srlgs) ⊎ (tails_end ≤ i)) }
{
    i >= OUTS_MAX || link.srlgs.len() > SRLGS_MAX || i >= tails_end
}

// The first rule that an out link breaks.
fn out_fault(parts: &Parts, survey: &Survey, i: usize) -> Option<TopoFault>
    requires inside { i < length parts.now.outs }
    requires survey { IsSurvey (rows_of_parts parts.now) survey.now }
    ensures { IsFirstRule (Breaks (rows_of_parts parts.now) RowKind.Out i) result }
{
    let out = &parts.outs.as_slice()[i];
    let link = &out.link;
    let place = parts.links.len() + i;
    first_rule(Broken {
        too_many: is_out_past(link, i, survey.tails_end),
        duplicate_node: false,
        unknown_node: !is_node(&survey.nodes, &survey.hints, link.from),
        own_as: !is_foreign(parts.own, out.to_as),
        bad_metric: has_bad_metric(link),
        duplicate_near: survey.same_near[place] > 0,
        duplicate_far: survey.same_far[place] > 0,
        duplicate_entry: false,
    })
}

// Whether an entry is past a limit: so many before it are of the same domain.
fn is_entry_past(same_domain: usize, i: usize, nodes_end: usize) -> bool
    ensures { Decides result ((ENTRIES_MAX ≤ same_domain) ⊎ (nodes_end ≤ i)) }
{
    same_domain >= ENTRIES_MAX || i >= nodes_end
}

// The first rule that an entry breaks, where no entry before it breaks one.
fn entry_fault(parts: &Parts, survey: &Survey, i: usize, entry: Entry) -> Option<TopoFault>
    requires inside { slice_get parts.now.entries i ≡ Some entry }
    requires survey { IsSurvey (rows_of_parts parts.now) survey.now }
    requires few { FewEntries (take i parts.now.entries) }
    ensures rule { IsFirstRule (Breaks (rows_of_parts parts.now) RowKind.Entry i) result }
    ensures number { entry.from_as.0 < 2 ^ 16 }
{
    first_rule(Broken {
        too_many: is_entry_past(survey.same_domain[i], i, survey.entry_nodes_end),
        duplicate_node: false,
        unknown_node: !is_node(&survey.nodes, &survey.hints, entry.node),
        own_as: !is_foreign(parts.own, entry.from_as),
        bad_metric: false,
        duplicate_near: false,
        duplicate_far: false,
        duplicate_entry: survey.same_entry[i] > 0,
    })
}

fn check_nodes(parts: &Parts, survey: &Survey) -> Result<(), BuildError>
    requires { IsSurvey (rows_of_parts parts.now) survey.now }
    ensures { MatchResult result (λ _. NoneOf (rows_of_parts parts.now) RowKind.Node) (IsReasonOf (rows_of_parts parts.now) RowKind.Node) }
{
    for i in 0..parts.nodes.len() {
        let broken = Broken {
            too_many: i >= NODES_MAX,
            duplicate_node: survey.same_node[i] > 0,
            unknown_node: false,
            own_as: false,
            bad_metric: false,
            duplicate_near: false,
            duplicate_far: false,
            duplicate_entry: false,
        };
        if let Some(fault) = first_rule(broken) {
            return Err(refusal(fault, RowKind::Node, i));
        }
    }
    Ok(())
}

fn check_links(parts: &Parts, survey: &Survey) -> Result<(), BuildError>
    requires { IsSurvey (rows_of_parts parts.now) survey.now }
    ensures { MatchResult result (λ _. NoneOf (rows_of_parts parts.now) RowKind.Link) (IsReasonOf (rows_of_parts parts.now) RowKind.Link) }
{
    for i in 0..parts.links.len() {
        if let Some(fault) = link_fault(parts, survey, i) {
            return Err(refusal(fault, RowKind::Link, i));
        }
    }
    Ok(())
}

fn check_outs(parts: &Parts, survey: &Survey) -> Result<(), BuildError>
    requires { IsSurvey (rows_of_parts parts.now) survey.now }
    ensures { MatchResult result (λ _. NoneOf (rows_of_parts parts.now) RowKind.Out) (IsReasonOf (rows_of_parts parts.now) RowKind.Out) }
{
    for i in 0..parts.outs.len() {
        if let Some(fault) = out_fault(parts, survey, i) {
            return Err(refusal(fault, RowKind::Out, i));
        }
    }
    Ok(())
}

fn check_entries(parts: &Parts, survey: &Survey) -> Result<(), BuildError>
    requires { IsSurvey (rows_of_parts parts.now) survey.now }
    ensures { MatchResult result (λ _. NoneOf (rows_of_parts parts.now) RowKind.Entry × (length parts.now.entries < 2 ^ 32)) (IsReasonOf (rows_of_parts parts.now) RowKind.Entry) }
{
    for (i, entry) in parts.entries.as_slice().iter().enumerate() {
        if let Some(fault) = entry_fault(parts, survey, i, *entry) {
            return Err(refusal(fault, RowKind::Entry, i));
        }
    }
    Ok(())
}

/// Whether the rows obey the rules, and else the first breach.
pub(crate) fn check(parts: &Parts, survey: &Survey) -> Result<(), BuildError>
    requires { IsSurvey (rows_of_parts parts.now) survey.now }
    ensures { MatchResult result (λ _. IsTopology (rows_of_parts parts.now) × (length parts.now.entries < 2 ^ 32)) (IsReason (rows_of_parts parts.now)) }
{
    check_nodes(parts, survey)?;
    check_links(parts, survey)?;
    check_outs(parts, survey)?;
    check_entries(parts, survey)?;
    Ok(())
}
