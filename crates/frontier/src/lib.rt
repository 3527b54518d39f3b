// Waiting lines: what they mean, the least-floor line and the newest-first line.

#![tactic(auto)]

pub mod entry;
pub mod least_floor;
pub mod line;
pub mod newest_first;
mod room;
pub mod run;
