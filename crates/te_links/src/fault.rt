//! The faults of rows, and the rows at fault.
ghost use Rattle.std.specs.Prelude.{◌≡◌};
ghost use Rattle.te_links.specs.declared.fault.BuildError.TheVariants.{NoMemory};

use std::alloc::{AllocError, AllocFailed};
use std::fmt;

/// What is wrong with the rows of a topology, or with its text. At a row the rules go in the order
/// of the variants. `Syntax` and `NoHeader` are of texts alone.
#[derive(Clone, Copy, Debug)]
pub enum TopoFault {
    /// The row is past a limit, or has too many shared risk groups.
    TooMany,
    DuplicateNode,
    /// A link to or from an unknown node, or an out link or an entry at an unknown node.
    UnknownNode,
    /// An out link or an entry names the own domain, or 0.
    OwnAs,
    BadMetric,
    /// Another link, inner or out, has the near address.
    DuplicateNear,
    /// Another link, inner or out, has the far address.
    DuplicateFar,
    DuplicateEntry,
    Syntax,
    NoHeader,
}

impl fmt::Display for TopoFault {
    fn fmt<W: fmt::Write>(&self, f: &mut fmt::Formatter<W>) -> fmt::Result {
        f.write_str(match self {
            TopoFault::TooMany => "too many",
            TopoFault::DuplicateNode => "duplicate node",
            TopoFault::UnknownNode => "unknown node",
            TopoFault::OwnAs => "own as",
            TopoFault::BadMetric => "bad metric",
            TopoFault::DuplicateNear => "duplicate near",
            TopoFault::DuplicateFar => "duplicate far",
            TopoFault::DuplicateEntry => "duplicate entry",
            TopoFault::Syntax => "syntax",
            TopoFault::NoHeader => "no header",
        })
    }
}

/// The lists of rows in a topology.
#[derive(Clone, Copy, Debug)]
pub enum RowKind {
    Node,
    Link,
    Out,
    Entry,
}

/// A row, by its place in its list as it was given, from 0.
#[derive(Clone, Copy, Debug)]
pub struct Row {
    pub kind: RowKind,
    pub index: u32,
}

/// Why rows are no topology: the first rule that is broken and the row that breaks it, or out of
/// memory.
#[derive(Clone, Copy)]
pub enum BuildError {
    Rule(TopoFault, Row),
    NoMemory,
}

impl From<AllocError> for BuildError {
    ghost from_gives = { λ _ e. e ≡ NoMemory };

    fn from(_: AllocError) -> Self {
        BuildError::NoMemory
    }
}

impl<T: Drop> From<AllocFailed<T>> for BuildError {
    ghost from_gives = { λ _ e. e ≡ NoMemory };

    fn from(_: AllocFailed<T>) -> Self {
        BuildError::NoMemory
    }
}
