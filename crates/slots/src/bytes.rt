// The entries of a segment, read from the directory and written to it.
ghost use Rattle.std.specs.Prelude.{◌≡◌, ◌-◌, ◌*◌, ◌≤◌, length, take, drop};
ghost use Rattle.codec.specs.Words.{written};
ghost use Rattle.volume.specs.Segments.{capacity_of, segment_bytes};
ghost use Rattle.segment.specs.Chains.{InDirectory};
ghost use Rattle.directory.specs.Walks.{Readable};
ghost use Rattle.edits.specs.Entries.{is_empty};
ghost use Rattle.edits.specs.Values.{cleaned, value_at};
ghost use Rattle.slots.specs.Slots.{slot_entries, header_at};

pub use crate::entries::Slots;
use codec::words::{put, word_at};
use segment::chain::segment_at;
use segment::entry::decode_entry;
use segment::walk::entry_start;
use volume::entry::{Entry, empty_of};
use volume::segment::{Header, capacity, encode_segment};

// An entry as it is written again: an empty is zero but for status and length.
fn cleaned(e: Entry) -> Entry
    ensures { result ≡ cleaned e }
{
    if is_empty(&e) { empty_of(e.length) } else { e }
}

// Whether an entry is empty.
pub(crate) fn is_empty(e: &Entry) -> bool
    ensures { result ≡ is_empty e.now }
{
    e.status.is_empty()
}

// The entries of a segment. For our other crates: the caller has found the segment lawful.
pub fn entries_at(dir: &[u8], k: usize, extra: u16) -> Slots
    requires { (Readable extra dir.now k) × (extra ≤ 64) }
    ensures entries { slot_entries result ≡ value_at extra dir.now k }
    ensures room { (result.count ≤ capacity_of extra) × (result.count ≤ 72) }
{
    let segment = segment_at(dir, k);
    let most = capacity(extra);
    let mut entries = [empty_of(0); 72];
    for i in 0..most {
        let Some(e) = decode_entry(segment, entry_start(i, extra), extra) else {
            return Slots { count: i, entries };
        };
        entries[i] = cleaned(e);
    }
    Slots {
        count: most,
        entries,
    }
}

// The header of a segment: total, highest and extra are those of segment 1. For our other crates: the caller has checked
// that the directory holds the segment.
pub fn header_at(dir: &[u8], k: usize) -> Header
    requires { InDirectory dir.now k }
    ensures { result ≡ header_at dir.now k }
{
    Header {
        total: word_at(dir, 0),
        next: word_at(dir, 1024 * (k - 1) + 2),
        highest: word_at(dir, 4),
        extra: word_at(dir, 6),
        start: word_at(segment_at(dir, k), 8),
    }
}

// Writes a segment whole. For our other crates: the caller has checked that the directory holds the segment, and hands on
// no more entries than it can hold.
pub fn put_segment(dir: &mut [u8], k: usize, header: &Header, entries: &[Entry])
    requires place { InDirectory dir.old k }
    requires room { (header.now.extra ≤ 64) × (length entries.now ≤ capacity_of header.now.extra) }
    ensures { dir.new ≡ written dir.old (1024 * (k - 1)) (segment_bytes header.now entries.now) }
{
    let mut segment = [0; 1024];
    encode_segment(header, entries, &mut segment);
    put(dir, 1024 * (k - 1), &segment);
}

// All entries. Bare slices at the calls of this and of those below would be no plainer: they would not say what is written.
pub fn all_entries(s: &Slots) -> &[Entry]
    ensures entries { result.now ≡ slot_entries s.now }
    ensures long { length result.now ≡ s.now.count }
{
    &s.entries[..s.count]
}

// The first n entries.
pub fn first_entries(s: &Slots, n: usize) -> &[Entry]
    requires { n ≤ s.now.count }
    ensures entries { result.now ≡ take n (slot_entries s.now) }
    ensures long { length result.now ≡ n }
{
    &s.entries[..n]
}

// The entries behind the first n.
pub fn last_entries(s: &Slots, n: usize) -> &[Entry]
    requires { n ≤ s.now.count }
    ensures entries { result.now ≡ drop n (slot_entries s.now) }
    ensures long { length result.now ≡ s.now.count - n }
{
    &s.entries[n..s.count]
}
