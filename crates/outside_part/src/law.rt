//! Laws of sifting: what it keeps.
ghost use Rattle.outside_part.specs.Rows.{SiftsExactly, SiftsOnce, SiftsOnceByWords};
ghost use Rattle.outside_part.specs.Ranges.{SiftedFits};

/// A law: a sifted reply has, in order of entry and type, for each of these the first kept path of
/// least cost, with the word of its cost; and no other reply has.
pub fn sifts_exactly()
    ensures { SiftsExactly }
{}

/// A law: sifting what was sifted changes nothing, where the word of a cost means the cost, as the
/// words of single precision do.
pub fn sifts_once()
    ensures any { SiftsOnce }
    ensures words { SiftsOnceByWords }
{}

/// A law: each path of a sifted reply has hops that are read again as they are written, not too many,
/// and a METRIC of a type by which paths are measured.
pub fn sifted_fits()
    ensures { SiftedFits }
{}
