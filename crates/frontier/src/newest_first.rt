// The newest-first line: a row of entries in order of arrival.

use crate::room::Room;

mod calls;

/// Gives the entry that was added last.
// No model, as for the least-floor line.
#[derive(Drop)]
pub struct NewestFirstLine {
    room: Room,
}
