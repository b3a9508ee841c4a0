//! Why the file of a line gives no topology to load.
ghost use Rattle.std.specs.Prelude.{◌≡◌};
ghost use Rattle.network_files.specs.declared.error.FileError.TheVariants.{NoMemory};

use dom_base::NoMemory;
use plant_text::NetFault;

/// Why the file of a line gives no topology to load.
#[derive(Drop)]
pub enum FileError {
    /// The file is refused at this line of it, from 1, for its text, for a topology of another domain than the line names,
    /// or for changes that can't be made; 0 where a change leaves a row that was there before against the rules.
    BadFile(u32, NetFault),
    NoMemory,
}

impl From<NoMemory> for FileError {
    ghost from_gives = { λ _ e. e ≡ NoMemory };

    fn from(_: NoMemory) -> Self {
        FileError::NoMemory
    }
}
