//! The names and the comments of parts.
ghost use Rattle.std.specs.Prelude.{◌≡◌, ◌-◌, ◌++◌, IfOk, OnOk, replicate};
ghost use Rattle.plant_record.specs.Parts.{end_line, part_name, reason, tail_by};

use dom_base::{NoMemory, Text};
use event_tape::TapeEnd;
use itoa::Buffer;
use std::alloc::Global;

// The zeros before so many digits of a part's number.
fn zeros_before(digits: usize) -> &'static str
    ensures { result.now ≡ replicate (6 - digits) 48 }
{
    match digits {
        0 => "000000",
        1 => "00000",
        2 => "0000",
        3 => "000",
        4 => "00",
        5 => "0",
        _ => "",
    }
}

/// The name of a part: at least six digits, and `.play`.
pub(crate) fn part_name(alloc: Global, number: u64) -> Result<Text, NoMemory>
    ensures { IfOk result (λ name. name ≡ part_name number) }
{
    let mut buffer = Buffer::new();
    let digits = buffer.format(number);
    let mut name = zeros_before(digits.len()).to_string(alloc)?;
    name.push_str(digits)?;
    name.push_str(".play")?;
    Ok(Text::from_string(name))
}

// Why a tape ended, in words.
fn reason(why: TapeEnd) -> &'static [u8]
    ensures { result.now ≡ reason why }
{
    match why {
        TapeEnd::Behind => b"fell behind",
        TapeEnd::NoMemory => b"no memory",
        TapeEnd::Stopped => b"stop",
    }
}

// The last line of a record that ended in order.
fn push_end(why: TapeEnd, into: &mut Vec<u8>) -> Result<(), NoMemory>
    ensures { OnOk result (into.new.items ≡ into.old.items ++ end_line why) }
{
    into.extend_from_slice(b"# end of record: ")?;
    into.extend_from_slice(reason(why))?;
    into.push(b'\n')?;
    Ok(())
}

/// Writes what stands behind the lines of the last part: its last line, where the tape ended.
pub(crate) fn push_tail(ended: Option<TapeEnd>, into: &mut Vec<u8>) -> Result<(), NoMemory>
    ensures { OnOk result (into.new.items ≡ into.old.items ++ tail_by ended) }
{
    match ended {
        Some(why) => push_end(why, into),
        None => Ok(()),
    }
}
