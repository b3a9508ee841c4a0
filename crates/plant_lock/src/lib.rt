//! A ticket lock round a value, with one history of what all threads did to the value.
//!
//! A [`Turnstile`] keeps a value and lets one caller after another do an act to it. Each turn adds
//! one entry, the act with its answer, to a history that no memory holds: contracts alone speak of
//! it. A [`TurnSeat`] is the right to take turns, and knows a beginning of that history.
#![tactic(auto)]

pub mod counter;
mod seat;
mod steps;
mod turned;
mod turnstile;
mod view;
mod waiting;

pub use seat::{TurnSeat, Turnstile};
pub use turned::Turned;
pub use turnstile::{Spent, SplitError};
pub use view::{Key, SeatStage, Slot, View};
