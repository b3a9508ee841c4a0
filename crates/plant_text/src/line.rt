//! Events as lines give them.
ghost use Rattle.std.specs.Prelude.{◌≡◌};
ghost use Rattle.plant_text.specs.declared.line.LineError.TheVariants.{NoMemory};

use dom_base::{As, BorderRow, Bytes, List, NoMemory, Text, Tick};
use std::alloc::{AllocError, AllocFailed};

/// An event of a network, as a line gives it. A peer is None where the settings do not have its name; the rows of
/// `Solve` are empty except in lines of a network without topologies.
#[derive(Drop)]
pub enum LineEvent {
    Load(As, Text),
    Change(As, Text),
    Open(Option<u32>, u32),
    Shut(Option<u32>),
    Feed(Option<u32>, Bytes),
    Receive(Option<u32>, Bytes),
    Take(Option<u32>),
    Carry(As, As),
    Break(As, As),
    Solve(As, u64, List<BorderRow>),
    Tick(Tick),
    Drain(Option<u32>, u32),
    Settle,
    Finish,
    CertifyOn,
    DiscloseOn,
}

/// Why a line gives no event: it is outside the form, or out of memory.
#[derive(Clone, Copy, Debug, PartialEq, Eq)]
pub enum LineError {
    Outside,
    NoMemory,
}

impl From<NoMemory> for LineError {
    ghost from_gives = { λ _ e. e ≡ NoMemory };

    fn from(_: NoMemory) -> Self {
        LineError::NoMemory
    }
}

impl From<AllocError> for LineError {
    ghost from_gives = { λ _ e. e ≡ NoMemory };

    fn from(_: AllocError) -> Self {
        LineError::NoMemory
    }
}

impl<T: Drop> From<AllocFailed<T>> for LineError {
    ghost from_gives = { λ _ e. e ≡ NoMemory };

    fn from(_: AllocFailed<T>) -> Self {
        LineError::NoMemory
    }
}
