//! Tests of what no run of the built program shows: runs in which a call of the outside fails, requests that ask for no
//! bandwidth, and answers that none of its clients hears.
#![tactic(auto)]

#[cfg(test)]
mod answers;
#[cfg(test)]
mod drawn;
#[cfg(test)]
mod faults;
