//! What the rules need to know of all rows together: repeats, and limits on different nodes.
ghost use Rattle.std.specs.Prelude.{◌≡◌, ◌≢◌, ◌<◌, ◌++◌, AllPairs, Contains, IfOk, map};
ghost use Rattle.std.specs.Bool.{Decides};
ghost use Rattle.std.specs.BTreeMap.{is_at};
ghost use Rattle.dom_base.specs.AddrOrder.{rank};
ghost use Rattle.te_links.specs.Faults.{rows_of_parts};
ghost use Rattle.te_links.specs.Survey.{CountsBefore, IsFewUpTo, IsSurvey, TellsRepeats};

use crate::places::Hints;
use crate::rows::Parts;
use crate::{ENTRY_NODES_MAX, TAILS_MAX};
use dom_base::{Addr, As, stands};
use std::alloc::{AllocError, Global};
use std::collections::BTreeMap;

/// What the rules need to know of a row and the rows before it, and the nodes in the order of their
/// addresses. The rules need memory for nothing else.
#[derive(Drop)]
pub(crate) struct Survey {
    pub(crate) nodes: Vec<Addr>,
    pub(crate) hints: Hints,

    // for each row how many rows before it have the same
    pub(crate) same_node: Vec<usize>,
    pub(crate) same_near: Vec<usize>,
    pub(crate) same_far: Vec<usize>,
    pub(crate) same_entry: Vec<usize>,
    pub(crate) same_domain: Vec<usize>,

    // how many rows keep the limit on different nodes
    pub(crate) tails_end: usize,
    pub(crate) entry_nodes_end: usize,
}

// For each key how often it stands among those before it.
fn counts_before<K: Ord + Copy>(alloc: Global, keys: &[K]) -> Result<Vec<usize>, AllocError>
    requires { (a b : K) → Decides (is_at (K.cmp a) b) (a ≡ b) }
    ensures { IfOk result (λ counts. CountsBefore K.cmp keys.now counts.items) }
{
    let mut seen: BTreeMap<K, usize> = BTreeMap::new(alloc);
    let mut counts = Vec::with_capacity(alloc, keys.len())?;
    for key in keys {
        let count = seen.get(key).copied().unwrap_or(0);
        counts.push(count)?;
        seen.insert(*key, count + 1)?;
    }
    Ok(counts)
}

// Whether each address comes before the next.
fn rises(addrs: &[Addr]) -> bool
    ensures { Decides result (AllPairs (λ a b. rank a < rank b) addrs.now) }
{
    for i in 1..addrs.len() {
        if addrs[i - 1] >= addrs[i] {
            return false;
        }
    }
    true
}

// Whether no address is there twice, by a sort.
fn differ_sorted(alloc: Global, addrs: &[Addr]) -> Result<bool, AllocError>
    ensures { IfOk result (λ differ. Decides differ (AllPairs (λ a b. a ≢ b) addrs.now)) }
{
    let mut sorted = Vec::from_slice(alloc, addrs)?;
    sorted.sort_unstable();
    Ok(rises(&sorted))
}

// Whether no address is there twice. Rows mostly come in the order of their addresses: then no copy
// is made.
#[tactic(auto, using(crate::proofs::Different::risen_differ))]
fn all_differ(alloc: Global, addrs: &[Addr]) -> Result<bool, AllocError>
    ensures { IfOk result (λ differ. Decides differ (AllPairs (λ a b. a ≢ b) addrs.now)) }
{
    if rises(addrs) {
        return Ok(true);
    }
    differ_sorted(alloc, addrs)
}

// For each address how often it stands among those before it. In a topology that is never, and a
// sort shows it sooner than a map.
fn repeats_of(alloc: Global, addrs: &[Addr]) -> Result<Vec<usize>, AllocError>
    ensures { IfOk result (λ counts. TellsRepeats addrs.now counts.items) }
{
    if all_differ(alloc, addrs)? {
        return Ok(vec![in alloc; 0; addrs.len()]?);
    }
    counts_before(alloc, addrs)
}

// How long the front part is in which at most `most` addresses differ.
fn few_up_to(alloc: Global, addrs: &[Addr], most: usize) -> Result<usize, AllocError>
    ensures { IfOk result (IsFewUpTo most addrs.now) }
{
    let mut different = Vec::new(alloc);
    for (i, addr) in addrs.iter().enumerate() {
        if stands(&different, *addr) {
            continue;
        }
        if different.len() >= most {
            return Ok(i);
        }
        different.push(*addr)?;
    }
    Ok(addrs.len())
}

// The near addresses of the inner links, then of the out links.
fn nears_of(alloc: Global, parts: &Parts) -> Result<Vec<Addr>, AllocError>
    ensures { IfOk result (λ v. v.items ≡ map (λ l. l.near) parts.now.links ++ map (λ o. o.link.near) parts.now.outs) }
{
    let inner = parts.links.as_slice().iter().map(|l| l.near);
    let outer = parts.outs.as_slice().iter().map(|o| o.link.near);
    inner.chain(outer).collect(alloc)
}

// The far addresses of the inner links, then of the out links.
fn fars_of(alloc: Global, parts: &Parts) -> Result<Vec<Addr>, AllocError>
    ensures { IfOk result (λ v. v.items ≡ map (λ l. l.far) parts.now.links ++ map (λ o. o.link.far) parts.now.outs) }
{
    let inner = parts.links.as_slice().iter().map(|l| l.far);
    let outer = parts.outs.as_slice().iter().map(|o| o.link.far);
    inner.chain(outer).collect(alloc)
}

// The nodes that out links leave at.
fn tails_of(alloc: Global, parts: &Parts) -> Result<Vec<Addr>, AllocError>
    ensures { IfOk result (λ v. v.items ≡ map (λ o. o.link.from) parts.now.outs) }
{
    let outs = parts.outs.as_slice();
    outs.iter().map(|o| o.link.from).collect(alloc)
}

// The nodes of the entries.
fn entry_nodes_of(alloc: Global, parts: &Parts) -> Result<Vec<Addr>, AllocError>
    ensures { IfOk result (λ v. v.items ≡ map (λ e. e.node) parts.now.entries) }
{
    let entries = parts.entries.as_slice();
    entries.iter().map(|e| e.node).collect(alloc)
}

// The neighbouring domains of the entries.
fn domains_of(alloc: Global, parts: &Parts) -> Result<Vec<As>, AllocError>
    ensures { IfOk result (λ v. v.items ≡ map (λ e. e.from_as) parts.now.entries) }
{
    let entries = parts.entries.as_slice();
    entries.iter().map(|e| e.from_as).collect(alloc)
}

impl Survey {
    /// The survey of these rows.
    pub(crate) fn of(alloc: Global, parts: &Parts) -> Result<Survey, AllocError>
        ensures { IfOk result (IsSurvey (rows_of_parts parts.now)) }
    {
        let mut nodes = Vec::from_slice(alloc, parts.nodes.as_slice())?;
        let same_node = repeats_of(alloc, &nodes)?;
        nodes.sort()?;
        let hints = Hints::of(alloc, &nodes)?;
        let nears = nears_of(alloc, parts)?;
        let fars = fars_of(alloc, parts)?;
        let domains = domains_of(alloc, parts)?;
        let tails = tails_of(alloc, parts)?;
        let entry_nodes = entry_nodes_of(alloc, parts)?;
        Ok(Survey {
            nodes,
            hints,
            same_node,
            same_near: repeats_of(alloc, &nears)?,
            same_far: repeats_of(alloc, &fars)?,
            same_entry: counts_before(alloc, parts.entries.as_slice())?,
            same_domain: counts_before(alloc, &domains)?,
            tails_end: few_up_to(alloc, &tails, TAILS_MAX)?,
            entry_nodes_end: few_up_to(alloc, &entry_nodes, ENTRY_NODES_MAX)?,
        })
    }
}
