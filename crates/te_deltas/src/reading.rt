//! A change file, read.
ghost use Rattle.std.specs.Prelude.{◌≡◌, ◌≤◌, ◌<◌, ◌-◌, ◌^◌, ◌∷◌, Some, None, MatchOption, IsTrue, ◌↔◌, length, Ok};
ghost use Rattle.std.specs.Str.Lines.{lines as lines_of};
ghost use Rattle.dom_base.specs.AddrText.{addr_in};
ghost use Rattle.line_text.specs.Words.{all_words};
ghost use Rattle.te_text.specs.Given.{GivesRow, GivesText};
ghost use Rattle.te_deltas.specs.ChangeText.{add_of, change_at, change_file_most, change_in, drop_of, dropped_in, far_in, text_in};

use crate::CHANGE_FILE_MAX;
use crate::changes::Change;
use dom_base::{Addr, List, NoMemory, read_addr};
use line_text::{Line, Lines, Words, is_trimmed};
use std::alloc::Global;
use te_links::TopoFault;
use te_text::{RowError, TextError, TextRow, read_row};

// The far address, where no word follows it.
#[tactic(auto, unfolding(crate::specs::ChangeText::far_in))]
fn far_of(words: &mut Words<'_>) -> Option<Addr>
    ensures { result ≡ far_in words.old }
{
    let far = read_addr(words.next_word()?)?;
    if words.next_word().is_none() {
        Some(far)
    } else {
        None
    }
}

fn add_row(row: TextRow) -> Change
    ensures { result ≡ add_of row }
{
    match row {
        TextRow::Node(node) => Change::AddNode(node),
        TextRow::Link(link) => Change::AddLink(link),
        TextRow::Out(out) => Change::AddOut(out),
        TextRow::Entry(entry) => Change::AddEntry(entry),
    }
}

fn drop_row(row: TextRow) -> Option<Change>
    ensures { result ≡ drop_of row }
{
    match row {
        TextRow::Node(node) => Some(Change::DropNode(node)),
        TextRow::Entry(entry) => Some(Change::DropEntry(entry)),
        TextRow::Link(_) | TextRow::Out(_) => None,
    }
}

// A drop, by its words; `again` has the same words.
#[tactic(auto, unfolding(crate::specs::ChangeText::dropped_in))]
fn read_drop(
    alloc: Global,
    words: &mut Words<'_>,
    again: &mut Words<'_>,
) -> Result<Change, RowError>
    requires { again.old ≡ words.old }
    ensures { GivesRow result (dropped_in words.old) }
{
    let Some(kind) = words.next_word() else {
        return Err(RowError::Syntax);
    };
    if kind == b"link".as_slice() {
        let far = far_of(words).ok_or(RowError::Syntax)?;
        return Ok(Change::DropLink(far));
    }
    if kind == b"out".as_slice() {
        let far = far_of(words).ok_or(RowError::Syntax)?;
        return Ok(Change::DropOut(far));
    }
    let row = read_row(alloc, again)?;
    drop_row(row).ok_or(RowError::Syntax)
}

// The change that a line says.
#[tactic(auto, unfolding(crate::specs::ChangeText::change_in))]
fn read_change(alloc: Global, text: &[u8]) -> Result<Change, RowError>
    ensures { GivesRow result (change_in (all_words text.now)) }
{
    let mut words = Words::new(text);
    let mut again = Words::new(text);
    let Some(verb) = words.next_word() else {
        return Err(RowError::Syntax);
    };
    let Some(_verb) = again.next_word() else {
        return Err(RowError::Syntax);
    };
    if verb == b"add".as_slice() {
        let row = read_row(alloc, &mut words)?;
        return Ok(add_row(row));
    }
    if verb == b"drop".as_slice() {
        return read_drop(alloc, &mut words, &mut again);
    }
    Err(RowError::Syntax)
}

#[tactic(auto, unfolding(crate::specs::ChangeText::change_at))]
fn read_line(alloc: Global, line: &Line<'_>) -> Result<Change, TextError>
    ensures { GivesText result (change_at (record { number = line.now.number; text = line.now.text.now })) }
{
    if !is_trimmed(line.text) {
        return Err(TextError::At(line.number, TopoFault::Syntax));
    }
    match read_change(alloc, line.text) {
        Ok(change) => Ok(change),
        Err(RowError::Syntax) => Err(TextError::At(line.number, TopoFault::Syntax)),
        Err(RowError::NoMemory) => Err(TextError::NoMemory),
    }
}

/// Whether a change file may have so many bytes.
pub fn is_change_file(bytes: &[u8]) -> bool
    ensures { IsTrue result ↔ (length bytes.now ≤ change_file_most) }
{
    bytes.len() <= CHANGE_FILE_MAX
}

/// The changes of a text with the lines `add node ADDR`, `add link FROM TO NEAR FAR IGP TE BW COLOUR
/// [SRLG ..]`, `add out FROM HEAD NEAR FAR AS IGP TE BW COLOUR [SRLG ..]`, `add entry NODE AS`, `drop
/// node ADDR`, `drop link FAR`, `drop out FAR` and `drop entry NODE AS`. Lines and words are those of
/// the text of a topology: blank lines and lines that begin with `#` only count. The change at place
/// i stands in the i-th line that is neither blank nor a comment. The fault, `Syntax`, is that of the
/// first line outside this form.
pub fn read_changes(alloc: Global, bytes: &[u8]) -> Result<List<Change>, TextError>
    requires { length bytes.now ≤ change_file_most }
    ensures { GivesText result (text_in bytes.now) }
{
    let mut changes = List::new(alloc);
    let mut lines = Lines::new(bytes);
    while let Some(line) = lines.next_line() {
        let change = read_line(alloc, &line)?;
        changes.push(change)?;
    }
    Ok(changes)
}
