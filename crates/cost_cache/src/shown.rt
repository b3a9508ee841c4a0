//! The chosen segment of a node, from what is kept.
ghost use Rattle.std.specs.Prelude.{◌≡◌, IfOk, Some, slice_get};
ghost use Rattle.te_links.specs.Rows.{IsTopology};
ghost use Rattle.dom_base.specs.declared.query.Label.{Label};
ghost use Rattle.path_search.specs.Arcs.{label_at};
ghost use Rattle.cost_cache.specs.Entries.{IsKept};
ghost use Rattle.cost_cache.specs.Keys.{key_of};
ghost use Rattle.cost_cache.specs.Shown.{IsShown};

use crate::kept::Kept;
use border_costs::Ask;
use dom_base::{Addr, NoMemory};
use std::alloc::Global;
use te_links::Links;

/// The open form of the chosen segment from an entry with a label: its address, and then the far
/// address of each link. No link is read.
pub(crate) fn shown_from<'a, G: Links<'a>>(
    alloc: Global,
    _ask: &Ask,
    _links: &G,
    kept: &Kept,
    entry: Addr,
    from: u32,
) -> Result<Vec<Addr>, NoMemory>
    requires rules { IsTopology (G.rows _links.now) }
    requires kept { IsKept (G.rows _links.now) (key_of _ask.now) kept.now }
    requires from { slice_get (G.rows _links.now).nodes from ≡ Some entry }
    requires label { (a : Label) × (label_at kept.now.labels from ≡ Some a) }
    ensures { IfOk result (λ shown. IsShown (G.rows _links.now) _ask.now.query kept.now entry from shown.items) }
{
    let nexts = kept.nexts.as_slice();
    let mut shown = Vec::new(alloc);
    shown.push(entry)?;
    let mut place = from;
    while let Some(next) = nexts[place as usize] {
        shown.push(next.far)?;
        place = next.end;
    }
    Ok(shown)
}
