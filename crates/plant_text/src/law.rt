//! What the rules of settings ensure.
ghost use Rattle.plant_text.specs.Laws.{RulesAreWorth};

/// Settings that obey the rules are those of a network: few elements, links, peers and rows of policy, numbers and
/// names that differ, links between elements and peers at them.
pub fn settings_are_sound()
    ensures { RulesAreWorth }
{}
