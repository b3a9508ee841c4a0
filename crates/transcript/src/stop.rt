//! Why a script stops before its end.
ghost use Rattle.std.specs.Prelude.{◌≡◌};
ghost use Rattle.transcript.specs.declared.stop.Stop.TheVariants.{NoMemory};

use dom_base::{NoMemory, Text};
use plant_text::NetFault;

/// How many bytes a line of a script may have.
pub const LINE_MAX: usize = 262_144;

/// Why a script stops before its end.
#[derive(Drop)]
pub enum Stop {
    /// A file that a line names could not be read.
    ReadFault,
    /// The output could not be written.
    WriteFault,
    /// A file that a line names is refused: the first line of it that is at fault, from 1, and its fault.
    BadNetwork {
        file: Text,
        line: u32,
        fault: NetFault,
    },
    /// This line of the script, from 1, is outside the form.
    BadLine(u32),
    /// A file, by its name, or a line of the `input` has more bytes than its limit.
    TooLarge(Text),
    NoMemory,
}

impl From<NoMemory> for Stop {
    ghost from_gives = { λ _ e. e ≡ NoMemory };

    fn from(_: NoMemory) -> Self {
        Stop::NoMemory
    }
}
