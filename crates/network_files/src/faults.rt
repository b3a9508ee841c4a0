//! The words of faults.
ghost use Rattle.std.specs.Prelude.{◌≡◌};
ghost use Rattle.network_files.specs.Faults.{fault_text, topology_text};

use plant_text::NetFault;
use te_links::TopoFault;

fn topology_words(fault: TopoFault) -> &'static [u8]
    ensures { result.now ≡ topology_text fault }
{
    match fault {
        TopoFault::TooMany => b"too many",
        TopoFault::DuplicateNode => b"duplicate node",
        TopoFault::UnknownNode => b"unknown node",
        TopoFault::OwnAs => b"own as",
        TopoFault::BadMetric => b"bad metric",
        TopoFault::DuplicateNear => b"duplicate near",
        TopoFault::DuplicateFar => b"duplicate far",
        TopoFault::DuplicateEntry => b"duplicate entry",
        TopoFault::Syntax => b"syntax",
        TopoFault::NoHeader => b"no header",
    }
}

/// The words of a fault that names no row of settings.
pub fn fault_words(fault: &NetFault) -> &'static [u8]
    ensures { result.now ≡ fault_text fault.now }
{
    match fault {
        NetFault::Topo(told) => topology_words(*told),
        NetFault::NotToml => b"not toml",
        NetFault::OtherAs => b"other as",
        NetFault::Absent => b"absent",
        NetFault::Present => b"present",
        NetFault::NoElement => b"no element",
        _other => b"",
    }
}
