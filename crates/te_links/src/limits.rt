//! How much a topology may have.
ghost use Rattle.te_links.specs.Limits.{LimitsAreNumbers};

/// How many nodes a topology may have.
pub const NODES_MAX: usize = 1024;

/// How many inner links a topology may have.
pub const LINKS_MAX: usize = 8192;

/// How many out links a topology may have.
pub const OUTS_MAX: usize = 256;

/// How many different nodes out links may leave at.
pub const TAILS_MAX: usize = 16;

/// How many entries there may be for one neighbouring domain.
pub const ENTRIES_MAX: usize = 16;

/// How many different nodes entries may stand at.
pub const ENTRY_NODES_MAX: usize = 64;

/// How many shared risk groups a link may be in.
pub const SRLGS_MAX: usize = 8;

/// The greatest metric of a link.
pub const METRIC_MAX: u32 = 16_777_215;

/// A law: the limits are the numbers that the definition says.
pub fn limits_are_numbers()
    ensures { LimitsAreNumbers }
{}
