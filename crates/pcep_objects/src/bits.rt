//! Flags in an octet.
ghost use Rattle.std.specs.Prelude.{◌≡◌, ◌≤◌};
ghost use Rattle.pcep_objects.specs.Bodies.{has_flag};
ghost use Rattle.pcep_objects.specs.Spelling.{flag};

/// A flag where it is set, else 0.
pub(crate) fn flag(set: bool, value: u8) -> u8
    ensures { result ≡ flag set value }
{
    if set { value } else { 0 }
}

/// Whether a flag is set.
pub(crate) fn has_flag(octet: u8, value: u8) -> bool
    requires { 1 ≤ value }
    ensures { result ≡ has_flag octet value }
{
    octet / value % 2 == 1
}
