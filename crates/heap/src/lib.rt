// A binary heap over memory that its user lends.

#![tactic(auto)]

ghost use Rattle.std.specs.Prelude.{◌≡◌, ◌≤◌, min, length, take};
ghost use Rattle.heap.specs.Calls.{Pushed, Popped, Fronts};

use crate::sift::{sift_down, sift_up};

mod sift;

/// A heap of the first `len` items of its memory.
// A slice and a length, since the memory is lent and no call gets more.
#[derive(Drop)]
pub struct Heap<'a, T> {
    slots: &'a mut [T],
    len: usize,
    ghost within: { len ≤ length slots.now },
}

/// There is no room for another item.
#[derive(Clone, Copy, PartialEq, Eq, Debug)]
pub struct Full;

impl<'a, T> Heap<'a, T> {
    ghost use Rattle.heap.specs.Items.{cells, items};

    /// The heap of the first `len` items of the memory, as they lie there. A length beyond the memory counts as all of it.
    pub fn over(slots: &'a mut [T], len: usize) -> Heap<'a, T>
        ensures cells { cells result ≡ slots.old }
        ensures items { items result ≡ take len slots.old }
        ensures clamped { length (items result) ≡ min len (length slots.old) }
        ensures lent { result.slots.ghost_name ≡ slots.entry.ghost_name }
    {
        let len = len.min(slots.len());
        Heap { slots, len }
    }

    /// How many items there are.
    pub fn len(&self) -> usize
        ensures { result ≡ length (items self.now) }
    {
        self.len
    }
}

impl<T: Ord + Copy> Heap<'_, T> {
    ghost use Rattle.heap.specs.Items.{cells, items, SameMemory};

    /// Adds an item, unless the memory is full.
    pub fn push(&mut self, x: T) -> Result<(), Full>
        ensures lent { SameMemory self.old self.new }
        ensures pushed { Pushed T.cmp (cells self.old) (items self.old) x result (cells self.new) (items self.new) }
    {
        let at = self.len;
        if at == self.slots.len() {
            return Err(Full);
        }
        self.slots[at] = x;
        self.len = at + 1;
        sift_up(&mut self.slots[0..at + 1], at);
        Ok(())
    }

    /// Takes the item in front away; none where there is no item.
    pub fn pop(&mut self) -> Option<T>
        ensures lent { SameMemory self.old self.new }
        ensures popped { Popped T.cmp (cells self.old) (items self.old) result (cells self.new) (items self.new) }
    {
        let n = self.len;
        if n == 0 {
            return None;
        }
        let top = self.slots[0];
        let last = n - 1;
        let items = &mut self.slots[0..n];
        items.swap(0, last);
        sift_down(&mut items[0..last]);
        self.len = last;
        Some(top)
    }

    /// The item in front; none where there is no item.
    pub fn peek(&self) -> Option<T>
        ensures { Fronts T.cmp (items self.now) result }
    {
        front(self.slots, self.len)
    }
}

// For memory that is lent to be read alone, over which no heap can be made.

/// The item in front of the heap of the first `len` items of the memory; none where there is no item.
pub fn front<T: Ord + Copy>(slots: &[T], len: usize) -> Option<T>
    ensures { Fronts T.cmp (take len slots.now) result }
{
    if len.min(slots.len()) == 0 {
        return None;
    }
    Some(slots[0])
}
