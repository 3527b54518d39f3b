// Sifting: one item moves up or down until the items are in heap order again.
// The loops go from parent to child in a tree whose places are reckoned, so no iterator stands for them.
ghost use Rattle.std.specs.Prelude.{◌≡◌, ◌+◌, ◌*◌, ◌<◌, ◌≤◌, length};
ghost use Rattle.std.specs.List.Sorted.{IsPermutation};
ghost use Rattle.heap.specs.Sifting.{Tells, Best, Mends, Rises};

/// Whether the item at `a` comes after the one at `b`.
fn is_after<T: Ord>(s: &[T], a: usize, b: usize) -> bool
    requires { (a < length s.now) × (b < length s.now) }
    ensures { Tells T.cmp s.now a b result }
{
    s[a].cmp(&s[b]).is_gt()
}

/// Moves the item at `at` up, past each parent that comes after it.
pub(crate) fn sift_up<T: Ord>(s: &mut [T], mut at: usize)
    requires { at < length s.old }
    ensures shuffled { IsPermutation s.old s.new }
    ensures rises { Rises T.cmp s.old at s.new }
{
    while at > 0 {
        let parent = (at - 1) / 2;
        if !is_after(s, parent, at) {
            return;
        }
        s.swap(parent, at);
        at = parent;
    }
}

/// The child of `at` that comes first.
fn first_child<T: Ord>(s: &[T], at: usize) -> usize
    requires { at * 2 + 1 < length s.now }
    ensures bound { (at * 2 + 1 ≤ result) × (result ≤ at * 2 + 2) × (result < length s.now) }
    ensures best { Best T.cmp s.now at result }
{
    let left = at * 2 + 1;
    if left + 1 == s.len() {
        return left;
    }
    if is_after(s, left, left + 1) {
        return left + 1;
    }
    left
}

/// Moves the first item down, past each child that comes before it.
pub(crate) fn sift_down<T: Ord>(s: &mut [T])
    ensures shuffled { IsPermutation s.old s.new }
    ensures mends { Mends T.cmp s.old s.new }
{
    let mut at = 0;
    while at < s.len() / 2 {
        let child = first_child(s, at);
        if !is_after(s, at, child) {
            return;
        }
        s.swap(at, child);
        at = child;
    }
}
