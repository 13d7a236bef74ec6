// Entries of the directory, read from their bytes in place.
ghost use Rattle.std.specs.Prelude.{◌≡◌, ◌+◌, ◌≤◌, length, drop};
ghost use Rattle.segment.specs.Entries.{status_of, status_in, name_in, length_in, job_in, date_in, extra_of, entry_of};

use codec::name::Name;
use codec::words::{put, word_at};
use volume::entry::{Entry, Status};

// The status that a word names. An Option, since TryFrom would have an error type that says no more.
fn status_of(word: u16) -> Option<Status>
    ensures { result ≡ status_of word }
{
    match word {
        256 => Some(Status::Tentative),
        512 => Some(Status::Empty),
        1024 => Some(Status::Permanent),
        33792 => Some(Status::Protected),
        _ => None,
    }
}

// The status of the entry at a place, unless it is none of the four. For our other crates: the caller has checked that
// its word is there. No method below, since at the end of a segment there may be no more than this word.
#[tactic(auto, using(crate::proofs::Fields::word_here))]
pub fn status_at(bytes: &[u8], at: usize) -> Option<Status>
    requires { at + 2 ≤ length bytes.now }
    ensures { result ≡ status_in (drop at bytes.now) }
{
    status_of(word_at(bytes, at))
}

// The seven words of an entry, at the front of some bytes.
#[derive(Clone, Copy)]
pub struct EntryWords<'a> {
    bytes: &'a [u8],
    ghost there: { 14 ≤ length bytes.now },
}

impl<'a> EntryWords<'a> {
    // Those of the entry at a place. For our other crates: the caller has checked that they are there.
    pub fn new(bytes: &'a [u8], at: usize) -> EntryWords<'a>
        requires { at + 14 ≤ length bytes.now }
        ensures { result.bytes.now ≡ drop at bytes.now }
    {
        EntryWords {
            bytes: &bytes[at..],
        }
    }

    // Its status, unless it is none of the four.
    pub fn status(self) -> Option<Status>
        ensures { result ≡ status_in self.entry.bytes.now }
    {
        status_at(self.bytes, 0)
    }

    // Its name.
    pub fn name(self) -> Name
        ensures { result ≡ name_in self.entry.bytes.now }
    {
        Name {
            first: word_at(self.bytes, 2),
            second: word_at(self.bytes, 4),
            kind: word_at(self.bytes, 6),
        }
    }

    // Its length in blocks.
    pub fn length(self) -> u16
        ensures { result ≡ length_in self.entry.bytes.now }
    {
        word_at(self.bytes, 8)
    }

    // Its job word.
    pub fn job(self) -> u16
        ensures { result ≡ job_in self.entry.bytes.now }
    {
        word_at(self.bytes, 10)
    }

    // Its date word.
    pub fn date(self) -> u16
        ensures { result ≡ date_in self.entry.bytes.now }
    {
        word_at(self.bytes, 12)
    }
}

// Extra bytes, with zeros behind them.
fn extra_of(bytes: &[u8]) -> [u8; 64]
    requires { length bytes.now ≤ 64 }
    ensures { result ≡ extra_of bytes.now }
{
    let mut extra = [0; 64];
    put(&mut extra, 0, bytes);
    extra
}

// The entry at a place, unless its status is none of the four. For our other crates: the caller has checked that all of
// it is there, and how many extra bytes it has. These stay a number, which is any word until rule 5 is checked.
#[tactic(auto, using(crate::proofs::Fields::entry_is, crate::proofs::Fields::extra_is))]
pub fn decode_entry(bytes: &[u8], at: usize, extra: u16) -> Option<Entry>
    requires { (at + 14 + extra ≤ length bytes.now) × (extra ≤ 64) }
    ensures { result ≡ entry_of extra (drop at bytes.now) }
{
    let words = EntryWords::new(bytes, at);
    let behind = at + 14;
    Some(Entry {
        status: words.status()?,
        name: words.name(),
        length: words.length(),
        job: words.job(),
        date: words.date(),
        extra: extra_of(&bytes[behind..behind + extra as usize]),
    })
}
