// Who waits: a node's floor and its place.

/// A node that waits: its floor, below which the worth of no order that it leaves open lies, and its place in the node table.
/// Entries compare by their fields in this order: the least floor first, and among equals the smallest place.
#[derive(Clone, Copy, PartialEq, Eq, PartialOrd, Ord, Debug)]
pub struct Entry {
    pub floor: u64,
    pub place: usize,
}
