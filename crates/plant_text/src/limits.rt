//! How much the settings of a network may have.
ghost use Rattle.plant_text.specs.Limits.{LimitsAreNumbers};

/// How many elements a network may have, besides one parent.
pub const ELEMENTS_MAX: u32 = 16;

/// How many links between elements a network may have.
pub const LINKS_MAX: u32 = 120;

/// How many outside peers a network may have.
pub const PEERS_MAX: u32 = 256;

/// How many rows of policy a network may have.
pub const DENY_MAX: u32 = 4096;

/// How many links between domains a parent may know.
pub const PARENT_LINKS_MAX: u32 = 256;

/// How many ticks a key may live.
pub const KEY_LIFE_MAX: u16 = 3600;

/// How many letters and digits the name of a peer may have.
pub const NAME_MAX: usize = 16;

/// How many workers may solve.
pub const WORKERS_MAX: u32 = 8;

/// How many different entries the rows of a border table may have: the nodes at which paths may enter a domain,
/// and the node that a job asks from.
pub const ROW_ENTRIES_MAX: usize = 65;

/// A law: the limits are the numbers that the definition says.
pub fn limits_are_numbers()
    ensures { LimitsAreNumbers }
{}
