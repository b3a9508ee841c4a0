//! One line of a pair's certificate.
ghost use Rattle.std.specs.Prelude.{◌≡◌, Some, None, MatchOption};
ghost use Rattle.te_text.specs.RowText.{first, number_64};
ghost use Rattle.te_text.specs.Given.{GivesRow};
ghost use Rattle.diverse_pairs.specs.RowText.{nodes_behind, potential_row, rising_behind, row_in, some_addrs};

use dom_base::{Addr, List, read_addr, read_number};
use line_text::Words;
use path_certificate::{addrs_of, is_behind, is_dash};
use std::alloc::Global;
use te_text::{RowError, is_end, next_addr};

/// A line of a pair's certificate behind its header.
#[derive(Drop)]
pub enum PairRow {
    At(Addr, u64),
    First(List<Addr>),
    Second(List<Addr>),
    Cut(List<Addr>),
}

fn next_number(words: &mut Words<'_>) -> Option<u64>
    ensures { MatchOption result (first number_64 words.old ≡ None) (λ n. first number_64 words.old ≡ Some (n, words.new)) }
{
    read_number(words.next_word()?, u64::MAX)
}

// The potential in the words behind the first one.
fn potential_of(words: &mut Words<'_>) -> Option<PairRow>
    ensures { result ≡ potential_row words.old }
{
    let addr = next_addr(words)?;
    let number = next_number(words)?;
    if is_end(words) {
        Some(PairRow::At(addr, number))
    } else {
        None
    }
}

// One address or more, up to the last word.
fn path_of(alloc: Global, words: &mut Words<'_>) -> Result<List<Addr>, RowError>
    ensures { GivesRow result (some_addrs words.old) }
{
    let Some(start) = next_addr(words) else {
        return Err(RowError::Syntax);
    };
    addrs_of(alloc, start, words)
}

// An address and those in the words behind it, each behind the one before it.
fn rising_from(alloc: Global, start: Addr, words: &mut Words<'_>) -> Result<List<Addr>, RowError>
    ensures { GivesRow result (rising_behind start words.old) }
{
    let mut nodes = List::new(alloc);
    let mut last = start;
    nodes.push(start)?;
    while let Some(word) = words.next_word() {
        let Some(addr) = read_addr(word) else {
            return Err(RowError::Syntax);
        };
        if !is_behind(Some(last), addr) {
            return Err(RowError::Syntax);
        }
        last = addr;
        nodes.push(addr)?;
    }
    Ok(nodes)
}

// The nodes of a cut.
#[tactic(auto, unfolding(crate::specs::RowText::nodes_behind))]
fn nodes_of(alloc: Global, words: &mut Words<'_>) -> Result<List<Addr>, RowError>
    ensures { GivesRow result (nodes_behind words.old) }
{
    let Some(word) = words.next_word() else {
        return Err(RowError::Syntax);
    };
    if is_dash(word) {
        return if is_end(words) {
            Ok(List::new(alloc))
        } else {
            Err(RowError::Syntax)
        };
    }
    let Some(start) = read_addr(word) else {
        return Err(RowError::Syntax);
    };
    rising_from(alloc, start, words)
}

/// What words say, all of them: `at ADDR N`, `first ADDR ..`, `second ADDR ..`, `cut ADDR ..` in
/// rising order, or `cut -`. `Syntax` exactly for other words.
#[tactic(auto, unfolding(crate::specs::RowText::row_in))]
pub(crate) fn read_row(alloc: Global, words: &mut Words<'_>) -> Result<PairRow, RowError>
    ensures { GivesRow result (row_in words.old) }
{
    let Some(name) = words.next_word() else {
        return Err(RowError::Syntax);
    };
    if name == b"at".as_slice() {
        return match potential_of(words) {
            Some(row) => Ok(row),
            None => Err(RowError::Syntax),
        };
    }
    if name == b"first".as_slice() {
        let addrs = path_of(alloc, words)?;
        return Ok(PairRow::First(addrs));
    }
    if name == b"second".as_slice() {
        let addrs = path_of(alloc, words)?;
        return Ok(PairRow::Second(addrs));
    }
    if name == b"cut".as_slice() {
        let nodes = nodes_of(alloc, words)?;
        return Ok(PairRow::Cut(nodes));
    }
    Err(RowError::Syntax)
}
