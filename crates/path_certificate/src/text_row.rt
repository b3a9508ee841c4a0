//! One line of a certificate.
ghost use Rattle.std.specs.Prelude.{◌≡◌, Some, None};
ghost use Rattle.te_text.specs.Given.{GivesRow};
ghost use Rattle.path_certificate.specs.RowText.{addrs_behind, cost_in, is_dash as means_nothing, label_behind, path_behind, row_in};

use dom_base::{Addr, COST_MAX, Cost, Label, List, read_addr, read_number};
use line_text::Words;
use std::alloc::Global;
use te_text::{RowError, is_end, next_addr};

/// A line of a certificate behind its header.
#[derive(Drop)]
pub enum TextRow {
    Label(Addr, Option<Label>),
    Path(Option<List<Addr>>),
}

fn read_cost(word: &[u8]) -> Option<Cost>
    ensures { result ≡ cost_in word.now }
{
    let number = read_number(word, u64::from(COST_MAX))?;
    Cost::of(number as u32)
}

/// Whether a word stands for nothing.
pub fn is_dash(word: &[u8]) -> bool
    ensures { result ≡ means_nothing word.now }
{
    word == b"-".as_slice()
}

// The label in the words behind the address.
#[tactic(auto, unfolding(crate::specs::RowText::label_behind))]
fn label_of(words: &mut Words<'_>) -> Option<Option<Label>>
    ensures { result ≡ label_behind words.old }
{
    let word = words.next_word()?;
    if is_dash(word) {
        return if is_end(words) { Some(None) } else { None };
    }
    let cost = read_cost(word)?;
    let exit = next_addr(words)?;
    if is_end(words) {
        Some(Some(Label { cost, exit }))
    } else {
        None
    }
}

/// An address and those in the words behind it, up to the last.
pub fn addrs_of(alloc: Global, start: Addr, words: &mut Words<'_>) -> Result<List<Addr>, RowError>
    ensures { GivesRow result (addrs_behind start words.old) }
{
    let mut addrs = List::new(alloc);
    addrs.push(start)?;
    while let Some(word) = words.next_word() {
        let Some(addr) = read_addr(word) else {
            return Err(RowError::Syntax);
        };
        addrs.push(addr)?;
    }
    Ok(addrs)
}

// The path in the words behind the first one.
#[tactic(auto, unfolding(crate::specs::RowText::path_behind))]
fn path_of(alloc: Global, words: &mut Words<'_>) -> Result<Option<List<Addr>>, RowError>
    ensures { GivesRow result (path_behind words.old) }
{
    let Some(word) = words.next_word() else {
        return Err(RowError::Syntax);
    };
    if is_dash(word) {
        return if is_end(words) {
            Ok(None)
        } else {
            Err(RowError::Syntax)
        };
    }
    let Some(start) = read_addr(word) else {
        return Err(RowError::Syntax);
    };
    let addrs = addrs_of(alloc, start, words)?;
    Ok(Some(addrs))
}

/// What words say, all of them: `label ADDR COST EXIT`, `label ADDR -`, `path ADDR ..` or `path -`.
/// `Syntax` exactly for other words.
#[tactic(auto, unfolding(crate::specs::RowText::row_in))]
pub(crate) fn read_row(alloc: Global, words: &mut Words<'_>) -> Result<TextRow, RowError>
    ensures { GivesRow result (row_in words.old) }
{
    let Some(name) = words.next_word() else {
        return Err(RowError::Syntax);
    };
    if name == b"label".as_slice() {
        let Some(addr) = next_addr(words) else {
            return Err(RowError::Syntax);
        };
        let Some(label) = label_of(words) else {
            return Err(RowError::Syntax);
        };
        return Ok(TextRow::Label(addr, label));
    }
    if name == b"path".as_slice() {
        let path = path_of(alloc, words)?;
        return Ok(TextRow::Path(path));
    }
    Err(RowError::Syntax)
}
