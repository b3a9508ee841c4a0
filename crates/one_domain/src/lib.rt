//! What the element of a domain answers a client on its own: the chosen path of least cost or that
//! there is none, as a reply and as a certificate.
#![tactic(auto)]

mod certifying;
mod domain;
mod law;
mod replying;

pub use certifying::certificate_of;
pub use domain::{Chosen, DomainPath, search_domain, seeds_of, unknown_ends};
pub use law::reply_is_one;
pub use replying::{PathRequest, answer_of, reply_of};
