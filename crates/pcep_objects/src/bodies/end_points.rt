//! The body of END-POINTS: the two ends of a path, of IPv4 or of IPv6 (RFC 5440, section 7.6).
ghost use Rattle.std.specs.Prelude.{◌≡◌, ◌++◌, length, OnOk};
ghost use Rattle.pcep_objects.specs.Bodies.EndPoints.{end_points_of, longer_end_points_of, end_points_text};

use crate::object::Body;
use dom_base::{Addr, NoMemory, word};
use pcep_subobjects::{addr_len, put_addr, wide};

pub(crate) fn read(content: &[u8]) -> Option<Body>
    ensures { result ≡ end_points_of content.now }
{
    if content.len() != 8 {
        return None;
    }
    Some(Body::EndPoints {
        source: Addr::V4(word(content, 0)),
        target: Addr::V4(word(content, 4)),
    })
}

/// The body of the second type, whose addresses are of IPv6.
pub(crate) fn read_longer(content: &[u8]) -> Option<Body>
    ensures { result ≡ longer_end_points_of content.now }
{
    if content.len() != 32 {
        return None;
    }
    Some(Body::EndPoints {
        source: Addr::V6(wide(content, 0)),
        target: Addr::V6(wide(content, 16)),
    })
}

pub(crate) fn len(source: Addr, target: Addr) -> usize
    ensures { result ≡ length (end_points_text source target) }
{
    addr_len(source) + addr_len(target)
}

pub(crate) fn put(text: &mut Vec<u8>, source: Addr, target: Addr) -> Result<(), NoMemory>
    ensures { OnOk result (text.new.items ≡ text.old.items ++ end_points_text source target) }
{
    put_addr(text, source)?;
    put_addr(text, target)
}
