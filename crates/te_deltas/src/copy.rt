//! Copies of links.
ghost use Rattle.std.specs.Prelude.{◌≡◌, IfOk};

use dom_base::{Link, NoMemory};
use std::alloc::Global;
use te_links::OutLink;

pub(crate) fn copy_link(alloc: Global, link: &Link) -> Result<Link, NoMemory>
    ensures { IfOk result (λ copy. copy ≡ link.now) }
{
    let srlgs = link.srlgs.copy(alloc)?;
    Ok(Link {
        from: link.from,
        to: link.to,
        near: link.near,
        far: link.far,
        igp: link.igp,
        te: link.te,
        bytes_per_second: link.bytes_per_second,
        colour: link.colour,
        srlgs,
    })
}

pub(crate) fn copy_out(alloc: Global, out: &OutLink) -> Result<OutLink, NoMemory>
    ensures { IfOk result (λ copy. copy ≡ out.now) }
{
    let link = copy_link(alloc, &out.link)?;
    Ok(OutLink {
        link,
        to_as: out.to_as,
    })
}
