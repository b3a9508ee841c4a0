//! The faults of a text.
use dom_base::NoMemory;
use te_links::TopoFault;

/// Why a text is no topology, or says nothing of one: a fault and its line, from 1, or out of
/// memory.
#[derive(Clone, Copy, Debug)]
pub enum TextError {
    At(u32, TopoFault),
    NoMemory,
}

impl From<NoMemory> for TextError {
    ghost use Rattle.std.specs.Prelude.{◌≡◌};
    ghost use Rattle.te_text.specs.declared.error.TextError.TheVariants.{NoMemory};

    ghost from_gives = { λ _ e. e ≡ NoMemory };

    fn from(_: NoMemory) -> Self {
        TextError::NoMemory
    }
}
