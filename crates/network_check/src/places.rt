//! The lines of a settings text at which its rows and keys stand.
ghost use Rattle.std.specs.Prelude.{◌≡◌, ◌<◌, ◌^◌, length, slice_get};
ghost use Rattle.std.specs.Str.Lines.{lines as lines_of};
ghost use Rattle.network_check.specs.Places.{AreAbove, headed, heads as heads_line, is_key as is_key_word, key_in, key_line as line_of_key, left_behind, line_of as line_of_row, names_key as names, number_or, opens as opens_line, top_line as line_of_top, value_line as line_of_value};

use line_text::{Lines, Words};

/// A text, and the name of its file.
#[derive(Clone, Copy)]
pub struct Page<'a> {
    pub file: &'a [u8],
    pub text: &'a [u8],
}

// ---- a line

// Whether this is the first word of a line.
fn heads(header: &[u8], line: &[u8]) -> bool
    ensures { result ≡ heads_line header.now line.now }
{
    let mut words = Words::new(line);
    match words.next_word() {
        Some(word) => word == header,
        None => false,
    }
}

// Whether a line begins a table.
fn opens(line: &[u8]) -> bool
    ensures { result ≡ opens_line line.now }
{
    let mut words = Words::new(line);
    match words.next_word() {
        Some(word) => word.starts_with(b"["),
        None => false,
    }
}

// Whether a word is a key, or a key with the sign behind it.
fn is_key(key: &[u8], word: &[u8]) -> bool
    ensures { result ≡ is_key_word key.now word.now }
{
    let count = key.len();
    if word.len() < count {
        return false;
    }
    &word[..count] == key && (word.len() == count || word[count] == b'=')
}

fn names_key(key: &[u8], line: &[u8]) -> bool
    ensures { result ≡ names key.now line.now }
{
    let mut words = Words::new(line);
    match words.next_word() {
        Some(word) => is_key(key, word),
        None => false,
    }
}

// ---- the lines of a text

// The number of the line of so many earlier ones with this header, or 0; the lines behind it are left, or none.
fn seek(header: &[u8], index: usize, lines: &mut Lines<'_>) -> u32
    requires rising { AreAbove 0 lines.old }
    ensures number { result ≡ number_or 0 (slice_get (headed header.now lines.old) index) }
    ensures left { lines.new ≡ left_behind lines.old (slice_get (headed header.now lines.old) index) }
{
    let mut left = index;
    while let Some(line) = lines.next_line() {
        if heads(header, line.text) {
            if left == 0 {
                return line.number;
            }
            left -= 1;
        }
    }
    0
}

// The number of the first of these lines with that key, before one that begins a table; else a default.
fn find_key(key: &[u8], default: u32, lines: &mut Lines<'_>) -> u32
    ensures { result ≡ number_or default (key_in key.now lines.old) }
{
    while let Some(line) = lines.next_line() {
        if opens(line.text) {
            return default;
        }
        if names_key(key, line.text) {
            return line.number;
        }
    }
    default
}

/// The line of a row that has such a header; 0 where there is none.
pub(crate) fn row_line(text: &[u8], header: &[u8], index: usize) -> u32
    requires short { length (lines_of text.now) < 2 ^ 32 }
    ensures { result ≡ line_of_row text.now header.now index }
{
    seek(header, index, &mut Lines::new(text))
}

// The line of a key of a row that has such a header, or that of the header; 0 where there is no such row.
fn value_line(text: &[u8], header: &[u8], index: usize, key: &[u8]) -> u32
    requires short { length (lines_of text.now) < 2 ^ 32 }
    ensures { result ≡ line_of_value text.now header.now index key.now }
{
    let mut lines = Lines::new(text);
    let number = seek(header, index, &mut lines);
    find_key(key, number, &mut lines)
}

/// The line of a key before the first table, or 0.
pub(crate) fn top_line(text: &[u8], key: &[u8]) -> u32
    requires short { length (lines_of text.now) < 2 ^ 32 }
    ensures { result ≡ line_of_top text.now key.now }
{
    find_key(key, 0, &mut Lines::new(text))
}

/// The line of a key: of a row, or without a header of one before the first table.
pub(crate) fn key_line(text: &[u8], header: &[u8], index: usize, key: &[u8]) -> u32
    requires short { length (lines_of text.now) < 2 ^ 32 }
    ensures { result ≡ line_of_key text.now header.now index key.now }
{
    if header.is_empty() {
        top_line(text, key)
    } else {
        value_line(text, header, index, key)
    }
}
