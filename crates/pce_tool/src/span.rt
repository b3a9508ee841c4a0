//! The words of `replay`: which lines are told.
ghost use Rattle.std.specs.Prelude.{◌≡◌};
ghost use Rattle.pce_tool.specs.Tasks.{line_in, span_in};

use dom_base::read_number;
use plant_client::Span;

// The number of a line: decimal digits without a leading zero.
fn line_of(word: &str) -> Option<u32>
    ensures { result ≡ line_in word.now }
{
    let digits = word.as_bytes();
    if let [b'0', ..] = digits {
        return None;
    }
    let number = read_number(digits, u64::from(u32::MAX))?;
    Some(number as u32)
}

/// The lines from one to another, which is not before it.
pub(crate) fn span_of(from: &str, to: &str) -> Option<Span>
    ensures { result ≡ span_in from.now to.now }
{
    let from = line_of(from)?;
    let to = line_of(to)?;
    if from <= to {
        Some(Span { from, to })
    } else {
        None
    }
}
