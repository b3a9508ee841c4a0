//! How a record ends.
use crate::fault::Fault;
use event_tape::TapeEnd;

/// How a record ended: the tape did, all turns were made, the desk was spent, events were handed out elsewhere, or by a fault.
#[derive(Clone, Copy)]
pub enum Recorded {
    Ended(TapeEnd),
    Turns,
    Spent(u64),
    Lost,
    Fault(Fault),
}
