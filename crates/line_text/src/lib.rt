//! The lines of a text, the words of a line, and bytes in hexadecimal digits.
#![tactic(auto)]

mod hexadecimal;
mod lines;
mod words;

pub use hexadecimal::{HexError, read_hex, write_hex};
pub use lines::{Line, Lines, line_count};
pub use words::{Words, is_trimmed};
