// Words that are changed in a directory.
use crate::volumes::put_word;

// A word to be put into a segment: the segment, the byte at which the word begins there, and the word. It is a row of a table, so
// its parts have no names.
#[derive(Clone, Copy)]
pub struct Patch(pub usize, pub usize, pub u16);

// Where the words of a segment's header are: how many segments there are, the next one, the highest in use, the extra bytes to an
// entry, and the block at which the first entry begins.
pub const TOTAL: usize = 0;

pub const NEXT: usize = 2;

pub const HIGHEST: usize = 4;

pub const EXTRA: usize = 6;

pub const START: usize = 8;

// Where the entries of a segment are if they have no extra bytes. Each begins with its status.
pub const FIRST: usize = 10;

pub const SECOND: usize = 24;

pub const THIRD: usize = 38;

pub const FOURTH: usize = 52;

// Where the other words of an entry are: the two of its name, the one of its type, its length, its job word and its date.
pub const NAME: usize = 2;

pub const NAME_2: usize = 4;

pub const KIND: usize = 6;

pub const LENGTH: usize = 8;

pub const JOB: usize = 10;

pub const DATE: usize = 12;

// Puts the words into the directory, as far as there is memory.
pub fn put_patches(memory: &mut [u8], patches: &[Patch]) {
    for Patch(segment, at, word) in patches {
        put_word(memory, *segment, *at, *word);
    }
}
