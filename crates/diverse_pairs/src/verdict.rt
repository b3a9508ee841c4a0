//! The verdict of a check of a pair.
use path_certificate::Place;

/// All conditions hold, or which is the first that is false. Of paths, the place is an address,
/// counted through the first path and then the second, or a link. Of a cut, it is `seed 0` for the
/// ends, or a link.
#[derive(Clone, Copy)]
pub enum PairVerdict {
    Holds,
    Fails(Place),
}
