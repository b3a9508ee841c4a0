//! Copies of what a job holds.
ghost use Rattle.std.specs.Prelude.{◌≡◌, ◌++◌, IfOk, OnOk};

use dom_base::{Link, List, NoMemory, ParentLink};
use pce_common::model::ChildRow;
use pcep_subobjects::append_hops;
use std::alloc::Global;

fn copy_row(alloc: Global, row: &ChildRow) -> Result<ChildRow, NoMemory>
    ensures { IfOk result (λ copy. copy ≡ row.now) }
{
    let mut hops = List::new(alloc);
    append_hops(alloc, &mut hops, row.hops.as_slice())?;
    Ok(ChildRow {
        at: row.at,
        entry: row.entry,
        target: row.target,
        cost: row.cost,
        hops,
    })
}

/// Appends copies of rows.
pub fn append_rows(
    alloc: Global,
    rows: &mut List<ChildRow>,
    more: &[ChildRow],
) -> Result<(), NoMemory>
    ensures { OnOk result (rows.new ≡ rows.old ++ more.now) }
{
    for row in more {
        rows.push(copy_row(alloc, row)?)?;
    }
    Ok(())
}

fn copy_link(alloc: Global, link: &Link) -> Result<Link, NoMemory>
    ensures { IfOk result (λ copy. copy ≡ link.now) }
{
    Ok(Link {
        from: link.from,
        to: link.to,
        near: link.near,
        far: link.far,
        igp: link.igp,
        te: link.te,
        bytes_per_second: link.bytes_per_second,
        colour: link.colour,
        srlgs: link.srlgs.copy(alloc)?,
    })
}

fn copy_parent_link(alloc: Global, link: &ParentLink) -> Result<ParentLink, NoMemory>
    ensures { IfOk result (λ copy. copy ≡ link.now) }
{
    Ok(ParentLink {
        from_as: link.from_as,
        to_as: link.to_as,
        link: copy_link(alloc, &link.link)?,
    })
}

/// Equal links in memory of their own.
pub fn copy_links(alloc: Global, links: &[ParentLink]) -> Result<List<ParentLink>, NoMemory>
    ensures { IfOk result (λ copies. copies ≡ links.now) }
{
    let mut copies = List::new(alloc);
    for link in links {
        copies.push(copy_parent_link(alloc, link)?)?;
    }
    Ok(copies)
}
