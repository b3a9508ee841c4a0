//! Faults in the files of a network.
ghost use Rattle.std.specs.Prelude.{◌≡◌};
ghost use Rattle.plant_text.specs.declared.fault.NetError.TheVariants.{NoMemory};

use dom_base::{NoMemory, Text};
use std::alloc::{AllocError, AllocFailed};
use std::fmt;
use te_links::TopoFault;

/// A fault in a file of a network. A row is named by its table and its place there, from 0.
#[derive(Drop)]
pub enum NetFault {
    /// The settings are no TOML document.
    NotToml,
    /// A table has too many rows, or a row of it too many shared risk groups.
    TooMany(Text),
    /// A row lacks a key, has an unknown key, or has a malformed value.
    Shape(Text, u32),
    /// A row repeats what an earlier one has.
    Duplicate(Text, u32),
    /// A row names an element that does not exist.
    Unknown(Text, u32),
    /// An element asks a parent, and there is none.
    NoParent(u32),
    /// A client is to be added at a domain that is no element.
    NoElement,
    /// A topology is of another domain than the one that it is loaded for.
    OtherAs,
    /// A change drops a row that is not there.
    Absent,
    /// A change adds a row that is there.
    Present,
    /// A fault of a topology or of a certificate.
    Topo(TopoFault),
}

// Writes the fault of a row of a table.
fn fmt_row<W: fmt::Write>(
    f: &mut fmt::Formatter<W>,
    wrong: &str,
    table: &Text,
    index: u32,
) -> fmt::Result {
    write!(f, "{wrong} {} {index}", table.as_str())
}

impl fmt::Display for NetFault {
    fn fmt<W: fmt::Write>(&self, f: &mut fmt::Formatter<W>) -> fmt::Result {
        match self {
            NetFault::NotToml => f.write_str("not toml"),
            NetFault::TooMany(table) => write!(f, "too many {}", table.as_str()),
            NetFault::Shape(table, index) => fmt_row(f, "shape", table, *index),
            NetFault::Duplicate(table, index) => fmt_row(f, "duplicate", table, *index),
            NetFault::Unknown(table, index) => fmt_row(f, "unknown", table, *index),
            NetFault::NoParent(index) => write!(f, "no parent {index}"),
            NetFault::NoElement => f.write_str("no element"),
            NetFault::OtherAs => f.write_str("other as"),
            NetFault::Absent => f.write_str("absent"),
            NetFault::Present => f.write_str("present"),
            NetFault::Topo(fault) => fault.fmt(f),
        }
    }
}

/// Why settings make no network: the first rule that they break, or out of memory.
#[derive(Drop)]
pub enum NetError {
    Fault(NetFault),
    NoMemory,
}

impl From<NoMemory> for NetError {
    ghost from_gives = { λ _ e. e ≡ NoMemory };

    fn from(_: NoMemory) -> Self {
        NetError::NoMemory
    }
}

impl From<AllocError> for NetError {
    ghost from_gives = { λ _ e. e ≡ NoMemory };

    fn from(_: AllocError) -> Self {
        NetError::NoMemory
    }
}

impl<T: Drop> From<AllocFailed<T>> for NetError {
    ghost from_gives = { λ _ e. e ≡ NoMemory };

    fn from(_: AllocFailed<T>) -> Self {
        NetError::NoMemory
    }
}

/// The breaches of a row of settings, in the order in which a row is tested for them.
#[derive(Clone, Copy)]
pub enum Breach {
    TooMany,
    Shape,
    Duplicate,
    Unknown,
    NoParent,
}
