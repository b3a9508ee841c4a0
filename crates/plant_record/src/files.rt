//! Files that are written whole.
ghost use Rattle.std.specs.Prelude.{◌≡◌, ◌+◌, ◌∷◌, [], OnErr, OnOk};
ghost use Rattle.event_lines.specs.EventLines.{load_name as name_of_load};
ghost use Rattle.te_text.specs.TopologyText.{topology_text};
ghost use Rattle.plant_record.specs.Books.{Adds, IsLoad};
ghost use Rattle.plant_record.specs.Faults.{IsJudged};

use crate::fault::Fault;
use dom_edge::{Folder, write_all};
use event_lines::load_name;
use std::alloc::Global;
use te_links::Topology;
use te_text::write_topology;

/// Makes a file of that name, writes these octets to it, and closes it.
pub(crate) fn keep_file<F: Folder>(
    alloc: Global,
    folder: &mut F,
    name: &str,
    octets: &[u8],
) -> Result<(), Fault>
    ensures ok { OnOk result (Adds (F.contents folder.old) (F.contents folder.new) ((name.now, octets.now) ∷ [])) }
    ensures err { OnErr result (Adds (F.contents folder.old) (F.contents folder.new) []) }
    ensures judged { IsJudged F.File.faults (F.faults folder.old) (F.faults folder.new) result }
{
    let mut file = folder.create(alloc, name)?;
    write_all(&mut file, octets)?;
    folder.close(alloc, name, file)?;
    Ok(())
}

/// Keeps the topology of the load of this number in the file of its name.
pub(crate) fn keep_topology<F: Folder>(
    alloc: Global,
    folder: &mut F,
    number: u64,
    topology: &Topology,
) -> Result<(), Fault>
    ensures ok { OnOk result (Adds (F.contents folder.old) (F.contents folder.new) ((name_of_load number, topology_text topology.now) ∷ [])) }
    ensures load { OnOk result (IsLoad number topology.now) }
    ensures err { OnErr result (Adds (F.contents folder.old) (F.contents folder.new) []) }
    ensures judged { IsJudged F.File.faults (F.faults folder.old) (F.faults folder.new) result }
{
    let name = load_name(alloc, number)?;
    let text = write_topology(alloc, topology)?;
    keep_file(alloc, folder, name.as_str(), text.as_slice())
}
