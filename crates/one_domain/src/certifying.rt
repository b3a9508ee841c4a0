//! The certificate of a request.
ghost use Rattle.std.specs.Prelude.{◌≡◌, IfOk, option_map};
ghost use Rattle.border_costs.specs.Solutions.{AreLabelledRows};
ghost use Rattle.one_domain.specs.Certified.{IsCertified};
ghost use Rattle.one_domain.specs.Domain.{ask_of};

use crate::domain::{Chosen, ask_for, chosen_of};
use border_costs::{LabelledAnswer, solve_labelled_rows};
use dom_base::{Addr, List, NoMemory};
use path_certificate::Certificate;
use pcep_messages::Wanted;
use std::alloc::Global;
use te_links::{Counted, Topology};

// The rows of the domain's ask, with the labels of all nodes.
fn labelled_rows_for(
    alloc: Global,
    topology: &Topology,
    wanted: &Wanted,
) -> Result<LabelledAnswer, NoMemory>
    ensures { IfOk result (AreLabelledRows topology.now (ask_of topology.now.own wanted.now)) }
{
    let ask = ask_for(alloc, topology.own(), wanted)?;
    let mut links = Counted::new(topology);
    solve_labelled_rows(alloc, &ask, &mut links)
}

// The hops of the chosen path, if there is one.
fn hops_of(chosen: Option<Chosen>) -> Option<List<Addr>>
    ensures { result ≡ option_map (λ c. c.hops) chosen }
{
    match chosen {
        Some(chosen) => Some(chosen.hops),
        None => None,
    }
}

/// The certificate of a request: the least label of each node, and the chosen path.
pub fn certificate_of(
    alloc: Global,
    topology: &Topology,
    wanted: &Wanted,
) -> Result<Certificate, NoMemory>
    ensures { IfOk result (IsCertified topology.now wanted.now) }
{
    let LabelledAnswer { rows, certificate } = labelled_rows_for(alloc, topology, wanted)?;
    let Certificate { own, labels, .. } = certificate;
    Ok(Certificate {
        own,
        labels,
        path: hops_of(chosen_of(topology, wanted, rows)),
    })
}
