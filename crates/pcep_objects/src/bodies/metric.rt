//! The body of METRIC: a bound, or what a path costs (RFC 5440, section 7.8).
ghost use Rattle.std.specs.Prelude.{◌≡◌, ◌++◌, OnOk};
ghost use Rattle.pcep_objects.specs.Bodies.Metric.{metric_of, metric_text};

use crate::bits::{flag, has_flag};
use crate::object::Body;
use crate::octets::put_octets;
use dom_base::{NoMemory, units_of_word, word};
use pcep_codes::flags;

pub(crate) const LEN: usize = 8;

pub(crate) fn read(content: &[u8]) -> Option<Body>
    ensures { result ≡ metric_of content.now }
{
    if content.len() != LEN {
        return None;
    }
    let value = word(content, 4);
    if units_of_word(value).is_none() {
        return None;
    }
    Some(Body::Metric {
        bound: has_flag(content[2], flags::BOUND),
        computed: has_flag(content[2], flags::COMPUTED),
        kind: content[3],
        word: value,
    })
}

pub(crate) fn put(
    text: &mut Vec<u8>,
    bound: bool,
    computed: bool,
    kind: u8,
    word: u32,
) -> Result<(), NoMemory>
    ensures { OnOk result (text.new.items ≡ text.old.items ++ metric_text bound computed kind word) }
{
    let [a, b, c, d] = word.to_be_bytes();
    let flags = flag(computed, flags::COMPUTED) + flag(bound, flags::BOUND);
    put_octets(text, &[0, 0, flags, kind, a, b, c, d])
}
