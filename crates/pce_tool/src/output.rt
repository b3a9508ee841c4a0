//! The writing of a command's text.
ghost use Rattle.pce_tool.specs.Parts.{IsFinished};

use crate::status::Status;
use dom_edge::{Sink, write_all};

// Writes the whole text.
pub(crate) fn finish<K: Sink>(out: &mut K, text: &[u8]) -> Status
    ensures { IsFinished (K.written out.old) (K.written out.new) (K.faults out.old, K.faults out.new) text.now result }
{
    match write_all(out, text) {
        Ok(()) => Status::Ok,
        Err(_) => Status::WriteFault,
    }
}
