// Entries of a segment replaced by others.
ghost use Rattle.std.specs.Prelude.{◌≡◌, ◌+◌, ◌-◌, ◌<◌, ◌≤◌, [], ◌∷◌, ◌++◌, length, take, drop};
ghost use Rattle.std.specs.List.{insert};
ghost use Rattle.edits.specs.Edits.{spliced, rest};
ghost use Rattle.slots.specs.Slots.{slot_entries};

use crate::bytes::Slots;
use volume::entry::{Entry, empty_of};

// Takes out the entries from one place to another, of as many as count.
pub(crate) fn close_up(entries: &mut [Entry], count: usize, from: usize, to: usize)
    requires { (from ≤ to) × ((to ≤ count) × (count ≤ length entries.old)) }
    ensures { take (count - (to - from)) entries.new ≡ take from (take count entries.old) ++ drop to (take count entries.old) }
{
    let mut j = from;
    for k in to..count {
        let next = entries[k];
        entries[j] = next;
        j += 1;
    }
}

// Puts an entry in before the one at a place, of as many as count.
fn insert(entries: &mut [Entry], count: usize, i: usize, e: Entry)
    requires { (i ≤ count) × (count < length entries.old) }
    ensures { take (count + 1) entries.new ≡ insert (take count entries.old) i e }
{
    let mut carried = e;
    for k in i..count + 1 {
        let next = entries[k];
        entries[k] = carried;
        carried = next;
    }
}

// Puts an entry in the place of another. For our other crates, as those below: the caller has found that other.
pub fn replace(s: &mut Slots, i: usize, e: Entry)
    requires { i < s.old.count }
    ensures entries { slot_entries s.new ≡ spliced i 1 (e ∷ []) (slot_entries s.old) }
    ensures count { s.new.count ≡ s.old.count }
{
    s.entries[i] = e;
}

// Puts two entries in the place of one. There is room for one more.
pub fn replace_by_two(s: &mut Slots, i: usize, a: Entry, b: Entry)
    requires { (i < s.old.count) × (s.old.count < 72) }
    ensures entries { slot_entries s.new ≡ spliced i 1 (a ∷ b ∷ []) (slot_entries s.old) }
    ensures count { s.new.count ≡ s.old.count + 1 }
{
    let count = s.count;
    s.entries[i] = b;
    insert(&mut s.entries, count, i, a);
    s.count = count + 1;
}

// Puts an entry, and behind it an empty of so many blocks, in the place of two. An empty of no blocks is left out.
pub fn replace_two(s: &mut Slots, i: usize, first: Entry, blocks: u16)
    requires { i + 1 < s.old.count }
    ensures entries { slot_entries s.new ≡ spliced i 2 (first ∷ rest blocks) (slot_entries s.old) }
    ensures count { (1 ≤ s.new.count) × (s.new.count ≤ s.old.count) }
{
    let count = s.count;
    s.entries[i] = first;
    if blocks == 0 {
        close_up(&mut s.entries, count, i + 1, i + 2);
        s.count = count - 1;
    } else {
        s.entries[i + 1] = empty_of(blocks);
    }
}
