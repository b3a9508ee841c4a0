//! The values that texts give are within bounds: the addresses of a topology, also behind changes, are numbers of their kinds; what
//! a line feeds is octets, and no more than its bytes; rows that a line gives are in order; lines are no longer than their text; settings obey the rules of a
//! network. Laws, as the contracts of calls that do nothing.
ghost use Rattle.run_laws.specs.Given.{BlindLinesAreGiven};
ghost use Rattle.run_laws.specs.Ranges.{BlindFeedsAreOctets, ChangesKeepRange, FeedsAreOctets, TextsAreInRange};
ghost use Rattle.run_laws.specs.Settings.{ClientsAreAdded, ClientsAreModelled, SettingsAreModelled, SettingsAreNetworks};
ghost use Rattle.run_laws.specs.Sizes.{FeedsAreShort, LinesAreShort};

/// Each address of a topology that a text gives is a number of its kind.
pub fn texts_are_in_range()
    ensures { TextsAreInRange }
{}

/// Changes that a text gives leave it so.
pub fn changes_keep_range()
    ensures { ChangesKeepRange }
{}

/// The bytes that a line feeds to a peer are octets, in a network with topologies and in one without.
pub fn feeds_are_octets()
    ensures played { FeedsAreOctets }
    ensures blind { BlindFeedsAreOctets }
{}

/// A line of a network without topologies asks for an event that such a network has: no topology is loaded, and the rows
/// of a solve are in order, of few entries, and within the greatest cost.
pub fn blind_lines_are_given()
    ensures { BlindLinesAreGiven }
{}

/// A line feeds a peer no more octets than the line has bytes.
pub fn feeds_are_short()
    ensures { FeedsAreShort }
{}

/// The lines that are neither blank nor comments have together no more bytes than their text.
pub fn lines_are_short()
    ensures { LinesAreShort }
{}

/// Settings that a text gives obey the rules of a network, also with the client `path` of one of their elements.
pub fn settings_are_networks()
    ensures given { SettingsAreNetworks }
    ensures added { ClientsAreAdded }
{}

/// Settings that a text gives are a network of the model, also with the client `path` of one of their elements.
pub fn settings_are_modelled()
    ensures given { SettingsAreModelled }
    ensures added { ClientsAreModelled }
{}
