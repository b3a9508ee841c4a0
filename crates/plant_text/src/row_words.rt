//! The rows of a border table in a line.
ghost use Rattle.std.specs.Prelude.{◌≡◌, ◌≤◌, ◌==◌, ◌∷◌, None, MatchOption, length};
ghost use Rattle.dom_base.specs.AddrOrder.{rank};
ghost use Rattle.plant_text.specs.Given.{Gives};
ghost use Rattle.plant_text.specs.Lines.{are_rising_after, are_rows_at, cost_in, is_before as is_row_before, new_entries_after, row_in, rows_in, solved_in, with_row};

use crate::limits::ROW_ENTRIES_MAX;
use crate::line::{LineError, LineEvent};
use crate::word::{next_as, next_wide};
use dom_base::{Addr, As, BorderRow, COST_MAX, Cost, List, read_addr, read_number};
use line_text::Words;
use std::alloc::Global;

fn cost_of(word: &[u8]) -> Option<Cost>
    ensures { result ≡ cost_in word.now }
{
    let number = read_number(word, u64::from(COST_MAX))?;
    Cost::of(number as u32)
}

#[tactic(auto, unfolding(crate::specs::Lines::row_in))]
fn row_of(entry: &[u8], far: &[u8], head: &[u8], cost: &[u8]) -> Option<BorderRow>
    ensures { result ≡ row_in entry.now far.now head.now cost.now }
{
    let entry = read_addr(entry)?;
    let far = read_addr(far)?;
    let head = read_addr(head)?;
    let cost = cost_of(cost)?;
    Some(BorderRow {
        entry,
        far,
        head,
        cost,
    })
}

// The row that begins with a word.
fn next_row(entry: &[u8], words: &mut Words<'_>) -> Option<BorderRow>
    ensures row { MatchOption result (rows_in (entry.now ∷ words.old) ≡ None) (λ row. rows_in (entry.now ∷ words.old) ≡ with_row row (rows_in words.new)) }
    ensures shorter { length words.new ≤ length words.old }
{
    let far = words.next_word()?;
    let head = words.next_word()?;
    let cost = words.next_word()?;
    row_of(entry, far, head, cost)
}

fn rows_of(alloc: Global, words: &mut Words<'_>) -> Result<List<BorderRow>, LineError>
    ensures { Gives result (rows_in words.old) }
{
    let mut rows = List::new(alloc);
    while let Some(word) = words.next_word() {
        let Some(row) = next_row(word, words) else {
            return Err(LineError::Outside);
        };
        rows.push(row)?;
    }
    Ok(rows)
}

fn is_same(a: Addr, b: Addr) -> bool
    ensures { result ≡ (rank a == rank b) }
{
    a == b
}

fn is_before(a: &BorderRow, b: &BorderRow) -> bool
    ensures { result ≡ is_row_before a.now b.now }
{
    a.entry < b.entry || (is_same(a.entry, b.entry) && a.far < b.far)
}

fn are_rising(front: &BorderRow, others: &[BorderRow]) -> bool
    ensures { result ≡ are_rising_after front.now others.now }
{
    let mut last = front;
    for row in others {
        if !is_before(last, row) {
            return false;
        }
        last = row;
    }
    true
}

// How many of the rows have another entry than the one before.
fn new_entries(front: &BorderRow, others: &[BorderRow]) -> usize
    ensures { result ≡ new_entries_after front.now others.now }
{
    let mut last = front;
    let mut count = 0;
    for row in others {
        if !is_same(last.entry, row.entry) {
            count += 1;
        }
        last = row;
    }
    count
}

// Whether the rows are in the order of a border table, of few entries; none are of the parent.
fn are_rows(at: As, rows: &[BorderRow]) -> bool
    ensures { result ≡ are_rows_at at rows.now }
{
    match rows {
        [] => true,
        [front, others @ ..] => {
            at.0 != 0 && are_rising(front, others) && new_entries(front, others) < ROW_ENTRIES_MAX
        }
    }
}

/// A job with its rows, in the words behind `solve`.
#[tactic(auto, unfolding(crate::specs::Lines::solved_in))]
pub(crate) fn solved(alloc: Global, words: &mut Words<'_>) -> Result<LineEvent, LineError>
    ensures { Gives result (solved_in words.old) }
{
    let Some(at) = next_as(words) else {
        return Err(LineError::Outside);
    };
    let Some(number) = next_wide(words) else {
        return Err(LineError::Outside);
    };
    let rows = rows_of(alloc, words)?;
    if are_rows(at, rows.as_slice()) {
        Ok(LineEvent::Solve(at, number, rows))
    } else {
        Err(LineError::Outside)
    }
}
