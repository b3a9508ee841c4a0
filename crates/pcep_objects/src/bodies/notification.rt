//! The body of NOTIFICATION: what a peer tells of requests or of itself (RFC 5440, section 7.14).
ghost use Rattle.std.specs.Prelude.{◌≡◌, ◌++◌, OnOk};
ghost use Rattle.pcep_objects.specs.Bodies.Notification.{notification_of, notification_text};

use crate::object::Body;
use crate::octets::put_octets;
use crate::tlvs::tlv_behind;
use dom_base::NoMemory;

pub(crate) const LEN: usize = 4;

pub(crate) fn read(content: &[u8]) -> Option<Body>
    ensures { result ≡ notification_of content.now }
{
    let Ok(_word) = tlv_behind(LEN, content, 0) else {
        return None;
    };
    Some(Body::Notification(content[2], content[3]))
}

pub(crate) fn put(text: &mut Vec<u8>, kind: u8, value: u8) -> Result<(), NoMemory>
    ensures { OnOk result (text.new.items ≡ text.old.items ++ notification_text kind value) }
{
    put_octets(text, &[0, 0, kind, value])
}
