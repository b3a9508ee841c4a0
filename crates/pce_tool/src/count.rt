//! The word of `bulk`: how many requests.
ghost use Rattle.std.specs.Prelude.{◌≡◌, ◌≤◌, IfSome};
ghost use Rattle.plant_client.specs.Requests.{requests_most};
ghost use Rattle.pce_tool.specs.Tasks.{count_in};

use dom_base::read_number;
use plant_client::REQUESTS_MAX;

/// How many requests a word asks for: decimal digits without a leading zero, and not too many.
pub(crate) fn count_of(word: &str) -> Option<u16>
    ensures count { result ≡ count_in word.now }
    ensures few { IfSome result (λ n. n ≤ requests_most) }
{
    let digits = word.as_bytes();
    if let [b'0', ..] = digits {
        return None;
    }
    let number = read_number(digits, u64::from(REQUESTS_MAX))?;
    Some(number as u16)
}
