//! Topologies from rows: the rows are tested by the rules and brought into order.
ghost use Rattle.std.specs.Prelude.{◌<◌, ◌^◌, length, IfOk, IfErr};
ghost use Rattle.te_links.specs.Rows.{IsTopology};
ghost use Rattle.te_links.specs.Built.{IsBuilt};
ghost use Rattle.te_links.specs.Faults.{IsReason, rows_of_parts};

use crate::checks::check;
use crate::fault::BuildError;
use crate::index::Index;
use crate::places::Hints;
use crate::rows::Parts;
use crate::survey::Survey;
use crate::topology::Topology;
use std::alloc::{AllocError, Global};

// The topology with these rows, which obey the rules.
fn assemble(alloc: Global, parts: Parts, hints: Hints) -> Result<Topology, AllocError>
    requires rules { IsTopology (rows_of_parts parts) }
    requires short { length parts.entries < 2 ^ 32 }
    ensures built { IfOk result (IsBuilt (rows_of_parts parts)) }
{
    let Parts {
        own,
        nodes,
        links,
        outs,
        entries,
    } = parts;
    let mut nodes = nodes.into_vec();
    let mut links = links.into_vec();
    let mut outs = outs.into_vec();
    let mut entries = entries.into_vec();
    nodes.sort()?;
    links.sort_by_key(|l| l.far)?;
    outs.sort_by_key(|o| o.link.far)?;
    entries.sort()?;
    let index = Index::of_links(alloc, &nodes, &hints, &links)?;
    Ok(Topology::of(own, nodes, links, outs, entries, hints, index))
}

impl Topology {
    /// The topology with exactly these rows, in its own order, where they obey the rules: else the
    /// first broken rule and its row. Nodes come first, then inner links, out links and entries,
    /// in the given order; at a row the rules go in the order of `TopoFault`. Takes time in
    /// proportion to the rows and the logarithm of their number.
    pub fn build(alloc: Global, parts: Parts) -> Result<Topology, BuildError>
        ensures built { IfOk result (IsBuilt (rows_of_parts parts)) }
        ensures refused { IfErr result (IsReason (rows_of_parts parts)) }
    {
        let survey = Survey::of(alloc, &parts)?;
        check(&parts, &survey)?;
        Ok(assemble(alloc, parts, survey.hints)?)
    }
}
