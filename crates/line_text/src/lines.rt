//! Lines with their numbers.
ghost use Rattle.std.specs.Prelude.{◌≡◌, ◌∷◌, [], ◌+◌, ◌<◌, ◌≤◌, ◌^◌, ◌==◌, position, length, MatchOption};
ghost use Rattle.std.specs.List.{list_all};
ghost use Rattle.std.specs.Str.Lines.{lines as lines_of, strip_carriage_return};
ghost use Rattle.line_text.specs.Words.{is_blank};
ghost use Rattle.line_text.specs.Lines.{is_skipped as tells_nothing, told_after, told_lines};

use std::marker::Model;

/// A line and its number, from 1.
#[derive(Clone, Copy)]
pub struct Line<'a> {
    pub number: u32,
    pub text: &'a [u8],
}

// The place of the first line feed.
fn line_feed_of(text: &[u8]) -> Option<usize>
    ensures { result ≡ position (λ c. c == 10) text.now }
{
    text.iter().position(|c| *c == b'\n')
}

fn without_return(line: &[u8]) -> &[u8]
    ensures { result.now ≡ strip_carriage_return line.now }
{
    match line {
        [front @ .., b'\r'] => front,
        _ => line,
    }
}

// The first line, and the text behind it.
fn cut_line(text: &[u8]) -> Option<(&[u8], &[u8])>
    ensures { MatchOption result
        (lines_of text.now ≡ [])
        (λ x. (lines_of text.now ≡ x.0.now ∷ lines_of x.1.now) × (length x.1.now < length text.now)) }
{
    if text.is_empty() {
        return None;
    }
    match line_feed_of(text) {
        Some(place) => Some((without_return(&text[..place]), &text[place + 1..])),
        None => Some((text, &text[text.len()..])),
    }
}

/// How many lines a text has, blank lines and comments included.
pub fn line_count(text: &[u8]) -> usize
    ensures count { result ≡ length (lines_of text.now) }
    ensures few { result ≤ length text.now }
{
    let mut rest = text;
    let mut count = 0;
    while let Some((_line, left)) = cut_line(rest) {
        count += 1;
        rest = left;
    }
    count
}

fn is_all_blank(line: &[u8]) -> bool
    ensures { result ≡ list_all is_blank line.now }
{
    line.iter().all(|c| *c == b' ' || *c == b'\t')
}

// Whether a line is blank or a comment.
fn is_skipped(line: &[u8]) -> bool
    ensures { result ≡ tells_nothing line.now }
{
    is_all_blank(line) || line.starts_with(b"#")
}

// The first line that is neither blank nor a comment, and the text behind it. `before` lines
// stand in front of the text.
fn cut_told_line(text: &[u8], before: u32) -> Option<(Line<'_>, &[u8])>
    requires { before + length (lines_of text.now) < 2 ^ 32 }
    ensures { MatchOption result
        (told_after before (lines_of text.now) ≡ [])
        (λ x. (told_after before (lines_of text.now) ≡ record { number = x.0.number; text = x.0.text.now } ∷ told_after x.0.number (lines_of x.1.now))
        × (x.0.number + length (lines_of x.1.now) < 2 ^ 32)) }
{
    let mut rest = text;
    let mut number = before;
    while let Some((line, left)) = cut_line(rest) {
        number += 1;
        rest = left;
        if !is_skipped(line) {
            return Some((Line { number, text: line }, rest));
        }
    }
    None
}

/// The lines of a text that are still to come. Blank lines and comments are counted and skipped.
/// Copies nothing.
#[derive(Drop)]
pub struct Lines<'a> {
    rest: &'a [u8],
    before: u32,
}

impl<'a> Model for Lines<'a> {
    ghost use Rattle.std.specs.Prelude.{List, ◌+◌, ◌<◌, ◌^◌, length};
    ghost use Rattle.std.specs.Str.Lines.{lines as lines_of};
    ghost use Rattle.line_text.specs.Lines.{NumberedLine, told_after};

    ghost Value = { List NumberedLine };

    ghost view = { λ l. told_after l.before (lines_of l.rest.now) };

    ghost invariant = { λ l. l.before + length (lines_of l.rest.now) < 2 ^ 32 };
}

impl<'a> Lines<'a> {
    /// The lines of a whole text.
    pub fn new(text: &'a [u8]) -> Lines<'a>
        requires { length (lines_of text.now) < 2 ^ 32 }
        ensures { result ≡ told_lines text.now }
    {
        Lines {
            rest: text,
            before: 0,
        }
    }

    /// The next line with its number, which counts from 1, or none at the end.
    pub fn next_line(&mut self) -> Option<Line<'a>>
        ensures { MatchOption result
            ((self.old ≡ []) × (self.new ≡ []))
            (λ line. self.old ≡ record { number = line.number; text = line.text.now } ∷ self.new) }
    {
        let (line, rest) = cut_told_line(self.rest, self.before)?;
        self.rest = rest;
        self.before = line.number;
        Some(line)
    }
}
