// An entry that becomes empty joins the run of empties around it.
ghost use Rattle.std.specs.Prelude.{◌≡◌, ◌<◌, ◌≤◌, length};
ghost use Rattle.std.specs.List.{prefix_len, suffix_len, sum_by};
ghost use Rattle.edits.specs.Entries.{is_empty, blocks_of};
ghost use Rattle.edits.specs.Edits.{run_start, run_end, emptied};
ghost use Rattle.slots.specs.Slots.{slot_entries};

use crate::bytes::{Slots, all_entries, is_empty};
use crate::splice::close_up;
use volume::entry::{Entry, empty_of};

// How many empties end a list.
fn empties_before(entries: &[Entry]) -> usize
    ensures run { result ≡ suffix_len is_empty entries.now }
    ensures inside { result ≤ length entries.now }
{
    entries.iter().rev().take_while(|e| is_empty(e)).count()
}

// How many empties begin a list.
fn empties_after(entries: &[Entry]) -> usize
    ensures run { result ≡ prefix_len is_empty entries.now }
    ensures inside { result ≤ length entries.now }
{
    entries.iter().take_while(|e| is_empty(e)).count()
}

// Where the run of empties around an entry begins.
fn run_start(entries: &[Entry], i: usize) -> usize
    requires { i < length entries.now }
    ensures start { result ≡ run_start entries.now i }
    ensures inside { result ≤ i }
{
    i - empties_before(&entries[..i])
}

// Where it ends.
fn run_end(entries: &[Entry], i: usize) -> usize
    requires { i < length entries.now }
    ensures end { result ≡ run_end entries.now i }
    ensures behind { i < result }
    ensures inside { result ≤ length entries.now }
{
    i + 1 + empties_after(&entries[i + 1..])
}

// The blocks of some entries together.
fn blocks_of(entries: &[Entry]) -> u16
    requires { sum_by (λ (e : Entry). e.length) entries.now < 65536 }
    ensures { result ≡ sum_by (λ (e : Entry). e.length) entries.now }
{
    entries.iter().map(|e| e.length).sum()
}

// Makes an entry empty. For our other crates: the caller has found the entry, and a volume has its segment's blocks.
pub fn make_empty(s: &mut Slots, i: usize)
    requires place { i < s.old.count }
    requires blocks { blocks_of (slot_entries s.old) < 65536 }
    ensures entries { slot_entries s.new ≡ emptied i (slot_entries s.old) }
    ensures count { (1 ≤ s.new.count) × (s.new.count ≤ s.old.count) }
{
    let all = all_entries(s);
    let from = run_start(all, i);
    let to = run_end(all, i);
    let blocks = blocks_of(&all[from..to]);
    let count = s.count;
    s.entries[from] = empty_of(blocks);
    close_up(&mut s.entries, count, from + 1, to);
    s.count = count - (to - (from + 1));
}
