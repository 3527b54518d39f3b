#![tactic(auto)]

// What every layer shares: the refusals, places, and what an order of jobs is.
pub mod order;
pub mod place;
pub mod refusal;
