//! The commands, one a file.

pub(crate) mod answer;
pub(crate) mod blind;
pub(crate) mod bulk;
pub(crate) mod certify;
pub(crate) mod check;
pub(crate) mod pair;
pub(crate) mod pair_certify;
pub(crate) mod pair_verify;
pub(crate) mod path;
pub(crate) mod play;
pub(crate) mod replay;
pub(crate) mod verify;
