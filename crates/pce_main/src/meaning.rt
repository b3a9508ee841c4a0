//! What an answer without a path means, in words: behind the codes of RFC 5440, sections 7.5, 7.14 and 7.15, RFC 5441 and RFC 5520.
ghost use Rattle.std.specs.Prelude.{◌≡◌, ◌<◌, length};
ghost use Rattle.dom_edge.specs.Causes.{HasCause};
ghost use Rattle.dom_edge.specs.Streams.{Puts};

use dom_edge::{Put, Sink};
use std::alloc::Global;
use std::fmt;
use std::str::from_utf8;

// A line of codes is shorter.
const LINE_MAX: usize = 64;

/// A sink that keeps the beginning of what goes through it.
#[derive(Drop)]
pub struct Beginning<K: Sink + Drop> {
    sink: K,
    text: Vec<u8>,
}

impl<K: Sink + Drop> Beginning<K> {
    pub(crate) fn new(alloc: Global, sink: K) -> Self {
        Beginning {
            sink,
            text: Vec::new(alloc),
        }
    }

    /// What went through it first. Where memory lacks it is less.
    pub(crate) fn text(&self) -> &[u8] {
        &self.text
    }
}

// Keeps a piece behind the others, where there are not enough octets yet.
fn keep(text: &mut Vec<u8>, piece: &[u8]) {
    if text.len() < LINE_MAX {
        let _full = text.extend_from_slice(&piece[..piece.len().min(LINE_MAX)]);
    }
}

impl<K: Sink + Drop> Sink for Beginning<K> {
    ghost written = { λ p. K.written p.sink };

    ghost faults = { λ p. K.faults p.sink };

    fn write(&mut self, piece: &[u8]) -> Put
        requires { 0 < length piece.now }
        ensures puts { Puts (K.written self.old.sink) (K.written self.new.sink) result piece.now }
        ensures cause { HasCause (K.faults self.old.sink) (K.faults self.new.sink) (result ≡ Put.Failed) }
    {
        let put = self.sink.write(piece);
        if let Put::Bytes(count) = put {
            keep(&mut self.text, &piece[..count]);
        }
        put
    }
}

// The bits of a vector and their words, in the order in which they are told.
const BITS: [(u32, &str); 5] = [
    (0x01, "element not available"),
    (0x02, "destination not known"),
    (0x04, "source not known"),
    (0x08, "chain of elements not available"),
    (0x10, "key not expanded"),
];

fn nature_words(nature: &str) -> &'static str {
    match nature {
        "0" => "none found",
        "1" => "chain of elements broken",
        _ => "other nature",
    }
}

fn notice_words(kind: &str, value: &str) -> &'static str {
    match (kind, value) {
        ("1", "1") => "the asker cancels",
        ("1", "2") => "the element cancels: no room for more requests, or no free keys",
        _ => "other notice",
    }
}

fn error_words(kind: &str, value: &str) -> &'static str {
    match (kind, value) {
        ("2", _) => "unknown message",
        ("3", "1") => "unknown class",
        ("3", _) => "unknown type",
        ("4", "1") => "class not served",
        ("4", "2") => "type not served",
        ("4", _) => "parameter not served",
        ("6", "1") => "RP missing",
        ("6", "3") => "END-POINTS missing",
        ("8", _) => "unknown request",
        ("10", _) => "P clear",
        ("13", _) => "the chain can't do it",
        _ => "refused",
    }
}

// The bits that are set among eight hexadecimal digits.
#[derive(Drop)]
struct Vector<'a>(&'a str);

impl Vector<'_> {
    fn bits(&self) -> u32 {
        let mut bits: u32 = 0;
        for digit in self.0.chars() {
            bits = (bits << 4) | digit.to_digit(16).unwrap_or(0);
        }
        bits
    }
}

impl fmt::Display for Vector<'_> {
    fn fmt<W: fmt::Write>(&self, f: &mut fmt::Formatter<W>) -> fmt::Result {
        let bits = self.bits();
        for (bit, words) in BITS {
            if bits & bit != 0 {
                write!(f, ", {words}")?;
            }
        }
        Ok(())
    }
}

/// Tells what the codes of an answer mean; of a path nothing.
pub(crate) fn say_meaning(rt: &HostRuntime, answer: &[u8]) {
    let Ok(text) = from_utf8(answer) else {
        return;
    };
    let mut words = text.trim_end().split(' ');
    let (Some(what), Some(first), Some(second)) = (words.next(), words.next(), words.next()) else {
        return;
    };
    match what {
        "no-path" => {
            let _ = eprintln!(rt; "pce: no path: {}{}", nature_words(first), Vector(second));
        }
        "notice" => {
            let _ = eprintln!(rt; "pce: notice: {}", notice_words(first, second));
        }
        "error" => {
            let _ = eprintln!(rt; "pce: error: {}", error_words(first, second));
        }
        _ => {}
    }
}
