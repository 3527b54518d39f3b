// Orders: every job from 1 to n exactly once.
ghost use Rattle.std.specs.Prelude.{◌<◌, ◌↔◌, length, IsTrue, IsOk};
ghost use Rattle.model.specs.Orders.{Order, Fresh, SoughtBad, Checked};

use crate::refusal::Refusal;

/// Whether the entry at an index is one of the jobs and stands nowhere before it.
fn is_fresh(order: &[usize], index: usize, jobs: usize) -> bool
    requires { index < length order.now }
    ensures { IsTrue result ↔ Fresh jobs order.now index }
{
    let job = order[index];
    1 <= job && job <= jobs && !order[0..index].contains(&job)
}

/// The index of the first entry that is 0, too great or repeated; none where each entry is good.
fn first_bad(order: &[usize], jobs: usize) -> Option<usize>
    ensures { SoughtBad jobs order.now result }
{
    (0..order.len()).find(|index| !is_fresh(order, *index, jobs))
}

/// Passes the orders of `jobs` jobs, and names what is wrong with any other slice.
pub fn check_order(order: &[usize], jobs: usize) -> Result<(), Refusal>
    ensures answer { Checked jobs order.now result }
    ensures exact { IsOk result ↔ Order jobs order.now }
{
    if order.len() != jobs {
        return Err(Refusal::OrderLength);
    }
    match first_bad(order, jobs) {
        Some(index) => Err(Refusal::OrderEntry { place: index + 1 }),
        None => Ok(()),
    }
}
