//! The body of BANDWIDTH: what a path has to carry (RFC 5440, section 7.7).
ghost use Rattle.std.specs.Prelude.{◌≡◌, ◌++◌, OnOk};
ghost use Rattle.pcep_objects.specs.Bodies.Bandwidth.{bandwidth_of, bandwidth_text};

use crate::object::Body;
use crate::octets::put_octets;
use dom_base::{NoMemory, units_of_word, word};

pub(crate) const LEN: usize = 4;

pub(crate) fn read(content: &[u8]) -> Option<Body>
    ensures { result ≡ bandwidth_of content.now }
{
    if content.len() != LEN {
        return None;
    }
    let rate = word(content, 0);
    if units_of_word(rate).is_none() {
        return None;
    }
    Some(Body::Bandwidth(rate))
}

pub(crate) fn put(text: &mut Vec<u8>, word: u32) -> Result<(), NoMemory>
    ensures { OnOk result (text.new.items ≡ text.old.items ++ bandwidth_text word) }
{
    put_octets(text, &word.to_be_bytes())
}
