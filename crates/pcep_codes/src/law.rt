//! That the constants are the numbers of the registry.
ghost use Rattle.pcep_codes.specs.Numbers.{CodesAreNumbers};

/// A law: the codes are the numbers that the definition says.
pub fn codes_are_numbers()
    ensures { CodesAreNumbers }
{}
