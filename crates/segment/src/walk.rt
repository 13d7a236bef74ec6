// The entries of a segment, walked in place.
ghost use Rattle.std.specs.Prelude.{◌≡◌, ◌+◌, ◌<◌, ◌≤◌, length, IfSome};
ghost use Rattle.std.specs.Option.{option_map};
ghost use Rattle.volume.specs.Segments.{capacity_of};
ghost use Rattle.segment.specs.RoundTrip.{EntryReadsBack, HeaderReadsBack, SegmentReadsBack, ReadAreLawful, RewrittenReadsBack};
ghost use Rattle.segment.specs.Segments.{entry_start, segment_entries};

use crate::entry::status_at;
use codec::words::word_at;
use volume::segment::{END, capacity};

// Where an entry of a segment begins, counted from 0. For our other crates: the caller has checked that a segment can
// hold so many.
#[tactic(auto, using(crate::proofs::Walks::room_for, crate::proofs::Walks::room_behind))]
pub fn entry_start(index: usize, extra: u16) -> usize
    requires { index ≤ capacity_of extra }
    ensures start { result ≡ entry_start extra index }
    ensures end { result ≤ 1022 }
    ensures room { index < capacity_of extra → result + (14 + extra) ≤ 1022 }
{
    10 + index * (14 + extra as usize)
}

// How many entries a segment has, unless one has none of the four statuses, or no end comes after as many as it can
// hold.
pub fn count_entries(segment: &[u8; 1024], extra: u16) -> Option<usize>
    ensures count { result ≡ option_map length (segment_entries extra segment.now) }
    ensures most { IfSome result (λ n. n ≤ capacity_of extra) }
{
    let most = capacity(extra);
    // The count is what is told, and so no index.
    for count in 0..=most {
        let at = entry_start(count, extra);
        if word_at(segment, at) == END {
            return Some(count);
        }
        status_at(segment, at)?;
    }
    None
}

// What is written is read back, and what is read can be written.
pub fn segment_reads_back()
    ensures entry { EntryReadsBack }
    ensures header { HeaderReadsBack }
    ensures segment { SegmentReadsBack }
    ensures lawful { ReadAreLawful }
    ensures again { RewrittenReadsBack }
{}
