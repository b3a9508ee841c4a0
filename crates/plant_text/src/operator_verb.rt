//! The first words of operators' lines.
ghost use Rattle.std.specs.Prelude.{◌≡◌};
ghost use Rattle.plant_text.specs.OperatorLines.{verb_in, verb_word};

/// What the first word of an operator's line says.
#[derive(Clone, Copy)]
pub(crate) enum OperatorVerb {
    Load,
    Change,
    Stop,
    Show,
    Shut,
    Break,
    Write,
}

impl OperatorVerb {
    fn word(self) -> &'static str
        ensures { result.now ≡ verb_word self }
    {
        match self {
            OperatorVerb::Load => "load",
            OperatorVerb::Change => "change",
            OperatorVerb::Stop => "stop",
            OperatorVerb::Show => "show",
            OperatorVerb::Shut => "shut",
            OperatorVerb::Break => "break",
            OperatorVerb::Write => "write",
        }
    }
}

/// The verb of a word.
pub(crate) fn operator_verb_of(word: &[u8]) -> Option<OperatorVerb>
    ensures { result ≡ verb_in word.now }
{
    let verbs = [
        OperatorVerb::Load,
        OperatorVerb::Change,
        OperatorVerb::Stop,
        OperatorVerb::Show,
        OperatorVerb::Shut,
        OperatorVerb::Break,
        OperatorVerb::Write,
    ];
    verbs
        .iter()
        .copied()
        .find(|verb| word == verb.word().as_bytes())
}
