//! A topology from its text.
ghost use Rattle.std.specs.Prelude.{◌≡◌, ◌<◌, ◌-◌, ◌^◌, ℕ, Some, Err, IfOk, length, slice_get};
ghost use Rattle.std.specs.Str.Lines.{lines as lines_of};
ghost use Rattle.te_links.specs.declared.fault.TopoFault.{TopoFault};
ghost use Rattle.te_text.specs.Reads.{IsFaulty, Reads, lines_of_kind};

use crate::error::TextError;
use crate::reading::{Reading, RowLines, read_text};
use std::alloc::Global;
use te_links::{BuildError, Row, RowKind, Topology};

impl RowLines {
    // The line of a row.
    fn line_of(&self, row: Row) -> u32
        requires { row.index < length (lines_of_kind self.now row.kind) }
        ensures { slice_get (lines_of_kind self.now row.kind) row.index ≡ Some result }
    {
        let lines = match row.kind {
            RowKind::Node => &self.nodes,
            RowKind::Link => &self.links,
            RowKind::Out => &self.outs,
            RowKind::Entry => &self.entries,
        };
        lines.as_slice()[row.index as usize]
    }
}

/// The topology of a text with the lines `topology AS` (first, once), `node ADDR`, `link FROM TO
/// NEAR FAR IGP TE BW COLOUR [SRLG ..]`, `out FROM HEAD NEAR FAR AS IGP TE BW COLOUR [SRLG ..]` and
/// `entry NODE AS`. Lines are numbered from 1; blank lines and lines that begin with `#` only
/// count. The fault is that of the first line outside this form, else of the line of the
/// first row that breaks a rule of topologies.
pub fn read_topology(alloc: Global, bytes: &[u8]) -> Result<Topology, TextError>
    requires { length (lines_of bytes.now) < 2 ^ 32 - 1 }
    ensures ok { IfOk result (Reads bytes.now) }
    ensures at { (line : ℕ) (fault : TopoFault) → result ≡ Err (TextError.At line fault) → IsFaulty bytes.now line fault }
{
    let Reading { parts, lines } = read_text(alloc, bytes)?;
    match Topology::build(alloc, parts) {
        Ok(topology) => Ok(topology),
        Err(BuildError::Rule(fault, row)) => Err(TextError::At(lines.line_of(row), fault)),
        Err(BuildError::NoMemory) => Err(TextError::NoMemory),
    }
}
