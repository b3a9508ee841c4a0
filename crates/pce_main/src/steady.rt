//! Texts as a terminal may have them.
use std::fmt::{self, Write};

// A writer to which each character that would steer a terminal, or end the line, goes as `?`.
#[derive(Drop)]
struct Steady<'a, W>(&'a mut W);

impl<W: fmt::Write> fmt::Write for Steady<'_, W> {
    fn write_str(&mut self, text: &str) -> fmt::Result {
        for c in text.chars() {
            self.0.write_char(if c.is_control() { '?' } else { c })?;
        }
        Ok(())
    }
}

/// What is told of files and settings, whose names come from outside: on one line, and without what steers a terminal.
#[derive(Drop)]
pub struct Told<'a, T>(pub &'a T);

impl<T: fmt::Display> fmt::Display for Told<'_, T> {
    fn fmt<W: fmt::Write>(&self, f: &mut fmt::Formatter<W>) -> fmt::Result {
        write!(Steady(f), "{}", self.0)
    }
}
