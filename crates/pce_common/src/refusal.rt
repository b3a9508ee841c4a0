//! Why a solved job is not answered.
use plant_model::Refused;

/// Why something is refused, and what is handed back.
#[derive(Drop)]
pub struct Refusal<T> {
    pub why: Refused,
    pub back: T,
}
