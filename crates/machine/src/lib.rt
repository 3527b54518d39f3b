#![tactic(auto)]

// One machine with heads and tails: the schedule of an order.
pub mod line;
pub mod one_machine;
pub mod row;
pub mod schedule;
