// A list of jobs, which is filled and then moves into the problem that uses it.
ghost use Rattle.std.specs.Prelude.{◌≤◌, vec_len};

pub mod calls;
pub mod file;

/// A list of at most 128 jobs of one kind, numbered from 1 by place.
// Its fields and no model, since callers use that the jobs are few, and adding speaks of the room.
#[derive(Drop)]
pub struct JobList<J> {
    jobs: Vec<J>,
    ghost few: { vec_len jobs ≤ 128 },
}
