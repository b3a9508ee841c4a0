//! The names of the files of loads.
ghost use Rattle.std.specs.Prelude.{◌≡◌, IfOk};
ghost use Rattle.event_lines.specs.EventLines.{load_name};

use dom_base::{NoMemory, Text};
use itoa::Buffer;
use std::alloc::Global;

/// The name of the file with the topology of a load, `load-K.txt`; loads are counted from 1.
pub fn load_name(alloc: Global, number: u64) -> Result<Text, NoMemory>
    ensures { IfOk result (λ name. name ≡ load_name number) }
{
    let mut digits = Buffer::new();
    let mut name = "load-".to_string(alloc)?;
    name.push_str(digits.format(number))?;
    name.push_str(".txt")?;
    Ok(Text::from_string(name))
}
