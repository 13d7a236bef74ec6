// Changes of one segment of the directory in the workspace.
// Segment and index stay two numbers: a struct of both is no plainer, as each caller would have to make one.
ghost use Rattle.std.specs.Prelude.{◌≡◌, ◌≤◌, [], ◌∷◌};
ghost use Rattle.std.specs.Fn.{FnOnceTakesAtMut, FnOnceReturnsAtMut};
ghost use Rattle.codec.specs.Words.{word_at};
ghost use Rattle.directory.specs.Walks.{Readable};
ghost use Rattle.edits.specs.Entries.{renamed, marked};
ghost use Rattle.edits.specs.Edits.{emptied, spliced};
ghost use Rattle.slots.specs.declared.entries.Slots.{Slots};
ghost use Rattle.slots.specs.Slots.{slot_entries};
ghost use Rattle.changes.specs.Segments.{entries_in, entry_in, EntryIn, with_entries};

use codec::name::Name;
use slots::bytes::{Slots, all_entries, entries_at, header_at, put_segment};
use slots::join::make_empty;
use slots::splice::replace;
use volume::entry::{Entry, Status};

// Writes segment k again with its entries changed, to no more than they were.
fn rewrite<F: FnOnce(&mut Slots)>(dir: &mut [u8], k: usize, change: F)
    requires lawful { (Readable (word_at dir.old 6) dir.old k) × (word_at dir.old 6 ≤ 64) }
    requires takes { (s : Slots) → slot_entries s ≡ entries_in dir.old k → FnOnceTakesAtMut F.FnOnce change s }
    requires room { (s t : Slots) → slot_entries s ≡ entries_in dir.old k → FnOnceReturnsAtMut F.FnOnce change s tt t
        → t.count ≤ s.count }
    ensures { (s : Slots) × (t : Slots) × (slot_entries s ≡ entries_in dir.old k)
        × FnOnceReturnsAtMut F.FnOnce change s tt t × (dir.new ≡ with_entries dir.old k (λ _. slot_entries t)) }
{
    let header = header_at(dir, k);
    let mut slots = entries_at(dir, k, header.extra);
    change(&mut slots);
    put_segment(dir, k, &header, all_entries(&slots));
}

// Makes entry i of segment k empty. For our other crates, as those below: the caller has found the directory sound, and the
// entry there.
pub fn empty_at(dir: &mut [u8], k: usize, i: usize)
    requires { EntryIn dir.old k i }
    ensures { dir.new ≡ with_entries dir.old k (emptied i) }
{
    rewrite(dir, k, |slots| make_empty(slots, i));
}

// Gives entry i of segment k another name.
pub fn rename_at(dir: &mut [u8], k: usize, i: usize, name: Name)
    requires { EntryIn dir.old k i }
    ensures { dir.new ≡ with_entries dir.old k (spliced i 1 (renamed name (entry_in dir.old k i) ∷ [])) }
{
    rewrite(dir, k, |slots| {
        let entry = slots.entries[i];
        replace(slots, i, Entry { name, ..entry });
    });
}

// Gives entry i of segment k another status.
pub fn mark_at(dir: &mut [u8], k: usize, i: usize, status: Status)
    requires { EntryIn dir.old k i }
    ensures { dir.new ≡ with_entries dir.old k (spliced i 1 (marked status (entry_in dir.old k i) ∷ [])) }
{
    rewrite(dir, k, |slots| {
        let entry = slots.entries[i];
        replace(slots, i, Entry { status, ..entry });
    });
}
