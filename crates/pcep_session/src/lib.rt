//! The states of a session, from the first Open to its end (RFC 5440, sections 4.2 and 6, and appendix A).
#![tactic(auto)]

mod actions;
mod law;
mod reports;
mod session;
mod state;

pub use actions::{Action, Actions, Own, Reason};
pub use law::sessions_keep_order;
pub use session::{Input, Session};
pub use state::{Phase, State, Unknown};
