//! The line that tells the tally.
ghost use Rattle.std.specs.Prelude.{◌≡◌, ◌++◌, IfOk, OnOk, decimal};
ghost use Rattle.plant_client.specs.TallyText.{tally_text};

use crate::tally::Tally;
use dom_base::{NoMemory, write_number};
use std::alloc::Global;

// A number behind a word.
fn put(word: &[u8], number: u64, into: &mut Vec<u8>) -> Result<(), NoMemory>
    ensures { OnOk result (into.new.items ≡ into.old.items ++ word.now ++ decimal number) }
{
    into.extend_from_slice(word)?;
    write_number(number, into)
}

/// `bulk N paths P none M sum S max X`, of N requests.
pub fn tell_tally(alloc: Global, requests: u16, tally: Tally) -> Result<Vec<u8>, NoMemory>
    ensures { IfOk result (λ text. text.items ≡ tally_text requests tally) }
{
    let mut text = Vec::new(alloc);
    put(b"bulk ", u64::from(requests), &mut text)?;
    put(b" paths ", tally.paths, &mut text)?;
    put(b" none ", tally.none, &mut text)?;
    put(b" sum ", tally.sum, &mut text)?;
    put(b" max ", tally.greatest, &mut text)?;
    text.push(b'\n')?;
    Ok(text)
}
