//! What a client received, as lines for a person to read.
ghost use Rattle.std.specs.Prelude.{◌≡◌, ◌++◌, IfOk, OnOk, Some};
ghost use Rattle.plant_client.specs.Telling.{frame_lines, last_of, told_text};

use dom_base::{Bytes, NoMemory};
use pcep_framing::Framer;
use pcep_messages::{Bad, read_message};
use std::alloc::Global;
use transcript::write_message_lines;

fn write_frame(alloc: Global, frame: &[u8], into: &mut Vec<u8>) -> Result<(), NoMemory>
    ensures { OnOk result (into.new.items ≡ into.old.items ++ frame_lines (Some frame.now)) }
{
    match read_message(alloc, frame) {
        Ok(message) => write_message_lines(&message, into),
        Err(Bad::Malformed(_place)) => Ok(()),
        Err(Bad::NoMemory) => Err(NoMemory),
    }
}

fn write_last(alloc: Global, frames: &[Bytes], into: &mut Vec<u8>) -> Result<(), NoMemory>
    ensures { OnOk result (into.new.items ≡ into.old.items ++ frame_lines (last_of frames.now)) }
{
    match frames.last() {
        Some(frame) => write_frame(alloc, frame.as_slice(), into),
        None => Ok(()),
    }
}

/// What the last message that came answers: `cost C` and one hop a line (an address, or `key K at ADDR`), `no-path
/// NATURE VECTOR` with eight hexadecimal digits, `notice TYPE VALUE` or `error TYPE VALUE`. Of a reply its first path
/// counts. Another message, and bytes that are no whole message, tell nothing.
pub fn tell(alloc: Global, received: &[u8]) -> Result<Vec<u8>, NoMemory>
    ensures { IfOk result (λ text. text.items ≡ told_text received.now) }
{
    let fed = Framer::new(alloc).feed(received)?;
    let mut text = Vec::new(alloc);
    write_last(alloc, fed.frames.as_slice(), &mut text)?;
    Ok(text)
}
