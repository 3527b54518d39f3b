#![tactic(auto)]

// Worked examples and limits, each run as a test.
#[cfg(test)]
mod lists;
#[cfg(test)]
mod orders;
#[cfg(test)]
mod schedules;
