//! Comparisons of labels.
ghost use Rattle.std.specs.Prelude.{◌↔◌, IsTrue};
ghost use Rattle.walk_laws.specs.Certificate.{AtMost};

use dom_base::Label;

/// Whether a label is at most another one; no label is the greatest.
pub(crate) fn is_at_most(told: &Option<Label>, bound: &Label) -> bool
    ensures { IsTrue result ↔ AtMost told.now bound.now }
{
    match told {
        None => false,
        Some(label) => {
            label.cost.get() < bound.cost.get()
                || label.cost.get() == bound.cost.get() && label.exit <= bound.exit
        }
    }
}
