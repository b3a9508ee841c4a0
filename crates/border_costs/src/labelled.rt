//! The labels of all nodes as a certificate.
ghost use Rattle.std.specs.Prelude.{IfOk};
ghost use Rattle.path_search.specs.Search.{AreLabels};
ghost use Rattle.border_costs.specs.Solutions.{IsLabelled};

use crate::job::Ask;
use dom_base::{Addr, Label, List, NoMemory, Seed};
use path_certificate::Certificate;
use path_search::{Labels, label_rows};
use std::alloc::Global;
use te_links::Links;

/// The labels of all nodes as a certificate, without a path.
pub(crate) fn certificate_of<'a, G: Links<'a>>(
    alloc: Global,
    ask: &Ask,
    links: &G,
    seeds: &[Seed],
    labels: &Labels,
) -> Result<Certificate, NoMemory>
    requires { AreLabels (G.rows links.now) ask.now.query seeds.now labels.now }
    ensures { IfOk result (IsLabelled (G.rows links.now) ask.now seeds.now) }
{
    let rows = label_rows(alloc, links, labels)?;
    Ok(Certificate {
        own: ask.at,
        labels: List::from_vec(rows),
        path: None,
    })
}
