// The least-floor line: a heap over memory of its own.
ghost use Rattle.frontier.specs.Order.{InOrder};

use crate::room::Room;

mod calls;

/// Gives the least floor first, and among equals the smallest place.
// No model: what a line means to its users is its `state`.
#[derive(Drop)]
pub struct LeastFloorLine {
    room: Room,
    ghost heaped: { InOrder room.entries.items },
}
