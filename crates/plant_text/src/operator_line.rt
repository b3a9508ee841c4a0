//! What the lines of operators ask for.
use dom_base::{As, Text};

/// Whose counts an operator asks for. A peer is None where the settings do not have its name.
#[derive(Clone, Copy)]
pub enum Subject {
    All,
    Element(As),
    Peer(Option<u32>),
}

/// What an operator asks for, as a line gives it. A peer is None where the settings do not have its name.
#[derive(Drop)]
pub enum OperatorLine {
    Load(As, Text),
    Change(As, Text),
    Stop,
    Show(Subject),
    Shut(Option<u32>),
    Break(As, As),
    Write(As, Text),
}
