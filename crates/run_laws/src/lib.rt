//! What follows for every run of a network: links stay calm and work ends, few octets make few requests, pins of one number are of one
//! topology, drains give outside peers their own messages, and texts give what events ask for. Laws, as contracts of calls that do nothing.
#![tactic(auto)]

mod few_octets;
mod peers;
mod pins;
mod settling;
mod texts;

pub use few_octets::{asked_are_few, few_are_short, laws_of_few_octets, taken_are_fed};
pub use peers::{
    answers_are_right, drains_hand_out_all, handed_is_read, outlets_stand, taken_was_fed,
};
pub use pins::{histories_know_pins, pins_are_one, steps_know_pins};
pub use settling::{
    carries_break_nothing, links_are_calm, new_networks_weigh, ways_follow_sessions,
    weight_is_bounded, work_ends,
};
pub use texts::{
    blind_lines_are_given, changes_keep_range, feeds_are_octets, feeds_are_short, lines_are_short,
    settings_are_modelled, settings_are_networks, texts_are_in_range,
};
