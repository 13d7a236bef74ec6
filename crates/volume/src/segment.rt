// Segments of the directory, 1,024 bytes each.
ghost use Rattle.std.specs.Prelude.{◌≡◌, ◌+◌, ◌≤◌, length};
ghost use Rattle.volume.specs.Segments.{capacity_of, segment_bytes};

use crate::entry::{Entry, encode_entry};
use codec::words::put_words;

// The five words that a segment begins with.
#[derive(Clone, Copy)]
pub struct Header {
    pub total: u16,
    pub next: u16,
    pub highest: u16,
    pub extra: u16,
    pub start: u16,
}

// The word that ends a segment.
pub const END: u16 = 2048;

// How many entries a segment can hold.
pub fn capacity(extra: u16) -> usize
    ensures { result ≡ capacity_of extra }
{
    1012 / (14 + extra as usize)
}

// Writes a segment whole. For our other crates: the caller hands on 1,024 bytes, and no more entries than they can hold.
pub fn encode_segment(h: &Header, entries: &[Entry], out: &mut [u8])
    requires { (length out.old ≡ 1024) × ((h.now.extra ≤ 64) × (length entries.now ≤ capacity_of h.now.extra)) }
    ensures { out.new ≡ segment_bytes h.now entries.now }
{
    let extra = h.extra as usize;
    out.fill(0);
    put_words(out, 0, &[h.total, h.next, h.highest, h.extra, h.start]);
    for (i, e) in entries.iter().enumerate() {
        encode_entry(e, extra, out, 10 + i * (14 + extra));
    }
    put_words(out, 10 + entries.len() * (14 + extra), &[END]);
}
