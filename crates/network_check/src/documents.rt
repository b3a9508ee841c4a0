//! The TOML document of a settings text, or the line at which a text is none.
ghost use Rattle.std.specs.Prelude.{◌≡◌, ◌<◌, ◌≤◌, ◌^◌, IfOk, length};
ghost use Rattle.network_check.specs.Documents.{IsParsed, line_of_place};

use dom_base::NoMemory;
use std::alloc::Global;
use std::str::from_utf8;
use toml::{Table, table_from_str};

/// What a text was found to be.
#[derive(Drop)]
pub enum Parsed {
    Document(Table),
    /// It is no document, from this line on.
    NoneAt(u32),
}

// The number of the line at a place of a text.
fn line_of(text: &[u8], place: usize) -> u32
    requires short { length text.now < 2 ^ 31 }
    requires within { place ≤ length text.now }
    ensures { result ≡ line_of_place text.now place }
{
    let before = &text[..place];
    before.iter().filter(|c| **c == b'\n').count() as u32 + 1
}

// The document of a text of whole characters.
fn parse(alloc: Global, text: &str) -> Result<Parsed, NoMemory>
    requires short { length text.now < 2 ^ 31 }
    ensures { IfOk result (IsParsed text.now) }
{
    match table_from_str(alloc, text) {
        Ok(root) => Ok(Parsed::Document(root)),
        Err(error) => match error.span() {
            Some(range) => Ok(Parsed::NoneAt(line_of(text.as_bytes(), range.start))),
            None => Err(NoMemory),
        },
    }
}

/// The document of a text, or the line at which it is none.
pub(crate) fn read_document(alloc: Global, text: &[u8]) -> Result<Parsed, NoMemory>
    requires short { length text.now < 2 ^ 31 }
    ensures { IfOk result (IsParsed text.now) }
{
    match from_utf8(text) {
        Ok(words) => parse(alloc, words),
        Err(error) => Ok(Parsed::NoneAt(line_of(text, error.valid_up_to()))),
    }
}
