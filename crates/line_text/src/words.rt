//! Words between blanks.
ghost use Rattle.std.specs.Prelude.{◌≡◌, ◌∷◌, [], ◌≤◌, ◌<◌, position, length, MatchOption};
ghost use Rattle.std.specs.List.{slice_split};
ghost use Rattle.line_text.specs.Words.{all_words, is_blank, is_trimmed as has_no_stray_blank};

use std::marker::Model;

fn is_blank(c: u8) -> bool
    ensures { result ≡ is_blank c }
{
    c == b' ' || c == b'\t'
}

// The place of the first blank.
fn blank_of(piece: &[u8]) -> Option<usize>
    ensures { result ≡ position is_blank piece.now }
{
    piece.iter().position(|c| *c == b' ' || *c == b'\t')
}

// The bytes before the first blank, and the bytes behind it.
fn cut_at_blank(piece: &[u8]) -> Option<(&[u8], &[u8])>
    ensures { MatchOption result
        (slice_split is_blank piece.now ≡ piece.now ∷ [])
        (λ x. (slice_split is_blank piece.now ≡ x.0.now ∷ slice_split is_blank x.1.now) × (length x.1.now < length piece.now)) }
{
    let place = blank_of(piece)?;
    Some((&piece[..place], &piece[place + 1..]))
}

// The first word, and the bytes behind it.
fn cut_word(line: &[u8]) -> Option<(&[u8], &[u8])>
    ensures { MatchOption result
        (all_words line.now ≡ [])
        (λ x. (all_words line.now ≡ x.0.now ∷ all_words x.1.now)) }
{
    let mut rest = line;
    while let Some((front, left)) = cut_at_blank(rest) {
        if !front.is_empty() {
            return Some((front, left));
        }
        rest = left;
    }
    if rest.is_empty() {
        None
    } else {
        Some((rest, &rest[rest.len()..]))
    }
}

/// The words of a line that are still to come. Copies nothing.
#[derive(Drop)]
pub struct Words<'a> {
    rest: &'a [u8],
}

impl<'a> Model for Words<'a> {
    ghost use Rattle.std.specs.Prelude.{List, ℕ};

    ghost Value = { List (List ℕ) };

    ghost use Rattle.line_text.specs.Words.{all_words};

    ghost view = { λ w. all_words w.rest.now };
}

impl<'a> Words<'a> {
    /// All words of a line; blanks before the first and after the last are skipped.
    pub fn new(line: &'a [u8]) -> Words<'a>
        ensures { result ≡ all_words line.now }
    {
        Words { rest: line }
    }

    /// The next word, or none at the end.
    pub fn next_word(&mut self) -> Option<&'a [u8]>
        ensures { MatchOption result ((self.old ≡ []) × (self.new ≡ [])) (λ word. self.old ≡ word.now ∷ self.new) }
    {
        let (word, rest) = cut_word(self.rest)?;
        self.rest = rest;
        Some(word)
    }
}

/// Whether no blank stands before the first word of a line or after the last.
pub fn is_trimmed(line: &[u8]) -> bool
    ensures { result ≡ has_no_stray_blank line.now }
{
    match line {
        [] => true,
        [only] => !is_blank(*only),
        [first, .., last] => !is_blank(*first) && !is_blank(*last),
    }
}
