#![tactic(auto)]

// Job records of sixteen bytes, and the two kinds of jobs that they hold.
pub mod field;
pub mod flow_job;
pub mod job;
pub mod machine_job;
pub mod record;
