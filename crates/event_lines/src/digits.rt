//! Octets, numbers and digits at the end of a `Vec`, in room that is there.
ghost use Rattle.std.specs.Prelude.{◌≡◌, ◌<◌, ◌≤◌, ◌+◌, ◌*◌, ◌++◌, ◌∷◌, [], decimal, length, vec_capacity, vec_len};
ghost use Rattle.line_text.specs.Hexadecimal.{digit_text, hex_text};

use itoa::Buffer;

/// Puts octets at the end.
pub(crate) fn put(octets: &[u8], into: &mut Vec<u8>)
    requires { vec_len into.old + length octets.now ≤ vec_capacity into.old }
    ensures items { into.new.items ≡ into.old.items ++ octets.now }
    ensures len { vec_len into.new ≡ vec_len into.old + length octets.now }
    ensures capacity { vec_capacity into.new ≡ vec_capacity into.old }
{
    for octet in octets {
        into.push_reserved(*octet);
    }
}

/// Puts a blank and a number at the end.
pub(crate) fn put_number(number: u64, into: &mut Vec<u8>)
    requires { vec_len into.old + 21 ≤ vec_capacity into.old }
    ensures items { into.new.items ≡ into.old.items ++ 32 ∷ decimal number }
    ensures len { vec_len into.new ≤ vec_len into.old + 21 }
    ensures capacity { vec_capacity into.new ≡ vec_capacity into.old }
{
    into.push_reserved(b' ');
    let mut buffer = Buffer::new();
    put(buffer.format(number).as_bytes(), into);
}

fn digit(number: u8) -> u8
    requires { number < 16 }
    ensures { result ≡ digit_text number }
{
    if number <= 9 {
        number + 48
    } else {
        number + 87
    }
}

/// Puts two digits an octet at the end.
pub(crate) fn put_hex(octets: &[u8], into: &mut Vec<u8>)
    requires { vec_len into.old + 2 * length octets.now ≤ vec_capacity into.old }
    ensures items { into.new.items ≡ into.old.items ++ hex_text octets.now }
    ensures len { vec_len into.new ≡ vec_len into.old + 2 * length octets.now }
    ensures capacity { vec_capacity into.new ≡ vec_capacity into.old }
{
    for octet in octets {
        into.push_reserved(digit(*octet / 16));
        into.push_reserved(digit(*octet % 16));
    }
}
