//! The files of the topologies.
ghost use Rattle.std.specs.Prelude.{◌≡◌, ◌≤◌, ◌+◌, ◌∷◌, [], IfOk, OnOk};
ghost use Rattle.network_files.specs.Draws.{draws_most};
ghost use Rattle.network_files.specs.DrawnFiles.{AreFiles, IsDrawn, IsFile, links_draws};
ghost use Rattle.network_files.specs.DrawnSettings.{file_name};

use crate::drawn_rows::draw_rows;
use crate::draws::Draws;
use crate::network::file_name;
use dom_base::{Bytes, List, NoMemory, Text};
use std::alloc::Global;
use te_links::{Parts, Topology};
use te_text::write_topology;

// The topology of these rows, which obey the rules; other rows would be answered by `NoMemory`.
fn build(alloc: Global, rows: Parts) -> Result<Topology, NoMemory>
    ensures { IfOk result (λ topology. IsDrawn rows topology) }
{
    match Topology::build(alloc, rows) {
        Ok(topology) => Ok(topology),
        Err(_) => Err(NoMemory),
    }
}

// The file of a domain, with its name.
fn draw_file(alloc: Global, domain: u8, draws: &mut Draws) -> Result<(Text, Bytes), NoMemory>
    requires domain { domain ≤ 4 }
    requires left { draws.old + 212 ≤ draws_most }
    ensures file { IfOk result (IsFile domain draws.old) }
    ensures drawn { OnOk result (draws.new ≡ draws.old + 212) }
{
    let rows = draw_rows(alloc, domain, draws)?;
    let topology = build(alloc, rows)?;
    let text = write_topology(alloc, &topology)?;
    Ok((file_name(alloc, domain)?, text))
}

fn four(
    alloc: Global,
    first: (Text, Bytes),
    second: (Text, Bytes),
    third: (Text, Bytes),
    fourth: (Text, Bytes),
) -> Result<List<(Text, Bytes)>, NoMemory>
    ensures { IfOk result (λ files. files ≡ first ∷ second ∷ third ∷ fourth ∷ []) }
{
    let mut files = List::new(alloc);
    files.push(first)?;
    files.push(second)?;
    files.push(third)?;
    files.push(fourth)?;
    Ok(files)
}

/// The files that the settings name, drawn in the order of domains.
pub fn draw_files(alloc: Global, draws: &mut Draws) -> Result<List<(Text, Bytes)>, NoMemory>
    requires { draws.old ≡ 0 }
    ensures files { IfOk result AreFiles }
    ensures drawn { OnOk result (draws.new ≡ links_draws) }
{
    let first = draw_file(alloc, 1, draws)?;
    let second = draw_file(alloc, 2, draws)?;
    let third = draw_file(alloc, 3, draws)?;
    let fourth = draw_file(alloc, 4, draws)?;
    four(alloc, first, second, third, fourth)
}
