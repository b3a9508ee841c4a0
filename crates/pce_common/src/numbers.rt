//! Numbers of requests, and the ids under which they are sent.
ghost use Rattle.std.specs.Prelude.{◌≡◌};
ghost use Rattle.plant_model.specs.Element.{after_id};
ghost use Rattle.plant_model.specs.Plant.{has_number};

/// The id that follows, which is never 0 (RFC 5440, section 7.4.1).
pub fn after_id(id: u32) -> u32
    ensures { result ≡ after_id id }
{
    if id == u32::MAX { 1 } else { id + 1 }
}

/// Whether a number is among others.
pub fn has_number(numbers: &[u64], number: u64) -> bool
    ensures { result ≡ has_number number numbers.now }
{
    for other in numbers {
        if number == *other {
            return true;
        }
    }
    false
}
