//! Messages as lines.
ghost use Rattle.std.specs.Prelude.{◌≡◌, ◌++◌, IfOk, OnErr, OnOk};
ghost use Rattle.plant_text.specs.Sents.{sent_line};

use dom_base::{As, NoMemory, Text, write_number};
use line_text::write_hex;
use std::alloc::Global;

// The line `LINE FROM>TO HEX`.
fn line_of(alloc: Global, line: u32, from: As, to: &Text, bytes: &[u8]) -> Result<Vec<u8>, NoMemory>
    ensures { IfOk result (λ text. text.items ≡ sent_line line from to.now bytes.now) }
{
    let digits = write_hex(alloc, bytes)?;
    let mut text = Vec::new(alloc);
    write_number(u64::from(line), &mut text)?;
    text.push(b' ')?;
    write_number(u64::from(from.0), &mut text)?;
    text.push(b'>')?;
    text.extend_from_slice(to.as_str().as_bytes())?;
    text.push(b' ')?;
    text.extend_from_slice(&digits)?;
    text.push(b'\n')?;
    Ok(text)
}

/// Writes a message that was sent in an event, `LINE FROM>TO HEX` and a line feed, at the end: the line of the event,
/// who sent it to whom, and its bytes in hexadecimal digits. On `NoMemory` `into` is as before.
pub fn write_sent(
    alloc: Global,
    line: u32,
    from: As,
    to: &Text,
    bytes: &[u8],
    into: &mut Vec<u8>,
) -> Result<(), NoMemory>
    ensures ok { OnOk result (into.new.items ≡ into.old.items ++ sent_line line from to.now bytes.now) }
    ensures err { OnErr result (into.new.items ≡ into.old.items) }
{
    let text = line_of(alloc, line, from, to, bytes)?;
    into.extend_from_slice(&text)?;
    Ok(())
}
