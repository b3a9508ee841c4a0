//! How serving a network ended.
ghost use Rattle.std.specs.Prelude.{◌≡◌};

use dom_base::{NoMemory, Text};
use plant_text::NetFault;

/// How serving a network ended.
#[derive(Drop)]
pub enum Served {
    /// The time was told in all turns. The threads that were started go on until the process ends.
    Turns,
    /// The time was told until the operator said that serving is to end, and the record, where one was asked for, had ended too.
    Stopped,
    /// A file could not be read.
    ReadFault,
    /// A file, by its name, has more bytes than its limit.
    TooLarge(Text),
    /// A file is refused: the first line that is at fault, from 1, and its fault. A fault of settings has the line 0.
    BadNetwork {
        file: Text,
        line: u32,
        fault: NetFault,
    },
    /// There is no record, since what is called so is there already, or could not be made or written.
    NoRecord(Text),
    /// This port could not be listened at.
    NoPort(u16),
    /// A thread could not be started.
    NoThread,
    NoMemory,
}

impl From<NoMemory> for Served {
    ghost use Rattle.network_serving.specs.declared.served.Served.TheVariants.{NoMemory};

    ghost from_gives = { λ _ e. e ≡ NoMemory };

    fn from(_: NoMemory) -> Self {
        Served::NoMemory
    }
}
