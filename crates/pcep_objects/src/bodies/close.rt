//! The body of CLOSE: why a session ends (RFC 5440, section 7.17).
ghost use Rattle.std.specs.Prelude.{◌≡◌, ◌++◌, OnOk};
ghost use Rattle.pcep_objects.specs.Bodies.Close.{close_of, close_text};

use crate::object::Body;
use crate::octets::put_octets;
use crate::tlvs::tlv_behind;
use dom_base::NoMemory;

pub(crate) const LEN: usize = 4;

pub(crate) fn read(content: &[u8]) -> Option<Body>
    ensures { result ≡ close_of content.now }
{
    let Ok(_word) = tlv_behind(LEN, content, 0) else {
        return None;
    };
    Some(Body::Close(content[3]))
}

pub(crate) fn put(text: &mut Vec<u8>, reason: u8) -> Result<(), NoMemory>
    ensures { OnOk result (text.new.items ≡ text.old.items ++ close_text reason) }
{
    put_octets(text, &[0, 0, 0, reason])
}
