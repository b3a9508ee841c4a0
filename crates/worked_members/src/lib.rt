//! Tables of tests: octets of routes, exclusions, objects and messages, each with its reading and what that is written as; messages that an
//! element and the parent take and send; and border graphs with their answers: all worked out by hand. They stand above the crates that they
//! test, so that none of these is proved once more for its tests.
#![tactic(auto)]

#[cfg(test)]
mod borders;
#[cfg(test)]
mod element;
#[cfg(test)]
mod octets;
#[cfg(test)]
mod parent;
#[cfg(test)]
mod parts;
#[cfg(test)]
mod telling;
#[cfg(test)]
mod words;
