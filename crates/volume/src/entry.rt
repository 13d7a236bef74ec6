// Entries of the directory.
ghost use Rattle.std.specs.Prelude.{◌≡◌, ◌+◌, ◌≤◌, length};
ghost use Rattle.codec.specs.Words.{written};
ghost use Rattle.volume.specs.Entries.{empty_status, file_status, tentative_status, protected_status, status_word, empty_of, entry_bytes};

use codec::name::Name;
use codec::words::{put, put_words};

// What an entry stands for.
#[derive(Clone, Copy, Debug, Default, PartialEq, Eq)]
pub enum Status {
    Tentative,
    #[default]
    Empty,
    Permanent,
    Protected,
}

impl Status {
    // Whether it is that of free blocks.
    pub fn is_empty(self) -> bool
        ensures { result ≡ empty_status self }
    {
        self == Status::Empty
    }

    // Whether it is that of a file, protected or not.
    pub fn is_file(self) -> bool
        ensures { result ≡ file_status self }
    {
        matches!(self, Status::Permanent | Status::Protected)
    }

    // Whether it is that of a file that is still being written.
    pub fn is_tentative(self) -> bool
        ensures { result ≡ tentative_status self }
    {
        self == Status::Tentative
    }

    // Whether it is that of a file that may not be changed.
    pub fn is_protected(self) -> bool
        ensures { result ≡ protected_status self }
    {
        self == Status::Protected
    }
}

// An entry, with zeros behind its extra bytes. How many there are stands once for all entries, in the header.
#[derive(Clone, Copy, Default)]
pub struct Entry {
    pub status: Status,
    pub name: Name,
    pub length: u16,
    pub job: u16,
    pub date: u16,
    pub extra: [u8; 64],
}

// The status word.
impl From<Status> for u16 {
    ghost from_gives = { λ s r. r ≡ status_word s };

    fn from(status: Status) -> u16 {
        match status {
            Status::Tentative => 256,
            Status::Empty => 512,
            Status::Permanent => 1024,
            Status::Protected => 33792,
        }
    }
}

// An empty of so many blocks.
pub fn empty_of(blocks: u16) -> Entry
    ensures { result ≡ empty_of blocks }
{
    Entry {
        length: blocks,
        ..Entry::default()
    }
}

// Writes an entry over the bytes at a place.
pub(crate) fn encode_entry(e: &Entry, extra: usize, out: &mut [u8], at: usize)
    requires { (at + 14 + extra ≤ length out.old) × (extra ≤ 64) }
    ensures after { out.new ≡ written out.old at (entry_bytes extra e.now) }
    ensures long { length (entry_bytes extra e.now) ≡ 14 + extra }
{
    let name = e.name;
    let words = [
        u16::from(e.status),
        name.first,
        name.second,
        name.kind,
        e.length,
        e.job,
        e.date,
    ];
    put_words(out, at, &words);
    put(out, at + 14, &e.extra[..extra]);
}
