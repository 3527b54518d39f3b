#![tactic(auto)]

// Lists of jobs, and the files that hold them.
pub mod joblist;
