// The volumes that the cases begin from.

// What stands on an image before its words are changed, with so many extra bytes to an entry.
#[derive(Clone, Copy)]
pub enum Volume {
    // Zeros.
    Blank,
    // A directory of 4 segments, of which 3 are in use, on 100 blocks.
    System(u16),
    // A directory of 1 segment, as full as it can be, on 100 blocks.
    Full(u16),
}

// An entry of the directory.
#[derive(Clone, Copy)]
struct Entry {
    status: u16,
    name: [u16; 3],
    length: u16,
    date: u16,
}

// Raw words, apart from the program's own table of statuses.
const EMPTY: u16 = 512;

const PERMANENT: u16 = 1024;

const PROTECTED: u16 = 33_792;

const END: u16 = 2048;

const NO_NAME: [u16; 3] = [0, 0, 0];

// From block 14 on: SWAP.SYS of 26 blocks, 4 free blocks, RT11SJ.SYS of 10 blocks.
const IN_SEGMENT_1: [Entry; 3] = [
    Entry {
        status: PERMANENT,
        name: [31_321, 25_600, 31_419],
        length: 26,
        date: 3117,
    },
    Entry {
        status: EMPTY,
        name: NO_NAME,
        length: 4,
        date: 0,
    },
    Entry {
        status: PERMANENT,
        name: [29_631, 50_370, 31_419],
        length: 10,
        date: 13_311,
    },
];

// Then, from block 54 on: DD.SYS of 6 blocks, which is protected, and PIP.SAV of 14 blocks.
const IN_SEGMENT_3: [Entry; 2] = [
    Entry {
        status: PROTECTED,
        name: [6560, 0, 31_419],
        length: 6,
        date: 3117,
    },
    Entry {
        status: PERMANENT,
        name: [25_976, 0, 30_462],
        length: 14,
        date: 0,
    },
];

// Then, from block 74 on: 5 free blocks, STARTS.COM of 1 block, and the last 20 blocks, which are free.
const IN_SEGMENT_2: [Entry; 3] = [
    Entry {
        status: EMPTY,
        name: NO_NAME,
        length: 5,
        date: 0,
    },
    Entry {
        status: PERMANENT,
        name: [31_201, 29_619, 5413],
        length: 1,
        date: 3117,
    },
    Entry {
        status: EMPTY,
        name: NO_NAME,
        length: 20,
        date: 0,
    },
];

// Writes words of a segment, low byte first.
fn put_words(memory: &mut [u8], segment: usize, at: usize, words: &[u16]) {
    let start = segment
        .wrapping_mul(1024)
        .wrapping_add(2048)
        .wrapping_add(at);
    // sliced, since `skip` would step over each byte before
    let from = start.min(memory.len());
    let bytes = words.iter().flat_map(|word| word.to_le_bytes());
    for (place, byte) in memory[from..].iter_mut().zip(bytes) {
        *place = byte;
    }
}

pub fn put_word(memory: &mut [u8], segment: usize, at: usize, word: u16) {
    put_words(memory, segment, at, &[word]);
}

// Where an entry of a segment is, with so many extra bytes to each.
pub fn entry_start(index: usize, extra: u16) -> usize {
    index.wrapping_mul(14 + usize::from(extra)).wrapping_add(10)
}

fn put_entry(memory: &mut [u8], segment: usize, at: usize, entry: &Entry) {
    let [first, second, kind] = entry.name;
    put_words(
        memory,
        segment,
        at,
        &[
            entry.status,
            first,
            second,
            kind,
            entry.length,
            0,
            entry.date,
        ],
    );
}

// Writes the entries of a segment, and the word that ends it.
fn put_entries(memory: &mut [u8], segment: usize, extra: u16, entries: &[Entry]) {
    for (index, entry) in entries.iter().enumerate() {
        put_entry(memory, segment, entry_start(index, extra), entry);
    }
    put_word(memory, segment, entry_start(entries.len(), extra), END);
}

// The last byte of each block behind the directory tells the number of the block.
fn number_blocks(memory: &mut [u8]) {
    for (b, block) in (0..100).zip(memory.chunks_exact_mut(512)).skip(14) {
        if let Some(last) = block.last_mut() {
            *last = b;
        }
    }
}

// The chain is 1, 3, 2.
fn put_system(memory: &mut [u8], extra: u16) {
    put_words(memory, 1, 0, &[4, 3, 3, extra, 14]);
    put_entries(memory, 1, extra, &IN_SEGMENT_1);
    put_words(memory, 3, 0, &[4, 2, 3, extra, 54]);
    put_entries(memory, 3, extra, &IN_SEGMENT_3);
    put_words(memory, 2, 0, &[4, 0, 3, extra, 74]);
    put_entries(memory, 2, extra, &IN_SEGMENT_2);
    number_blocks(memory);
}

// An empty of so many blocks.
fn empty_of(length: u16) -> Entry {
    Entry {
        status: EMPTY,
        name: NO_NAME,
        length,
        date: 0,
    }
}

// Empties of 1 block each from block 8 on, the last with what is left of 100 blocks.
fn put_full(memory: &mut [u8], extra: u16) {
    put_words(memory, 1, 0, &[1, 0, 1, extra, 8]);
    let most = 1012 / (14 + usize::from(extra));
    let last = most.saturating_sub(1);
    for index in 0..last {
        put_entry(memory, 1, entry_start(index, extra), &empty_of(1));
    }
    let left = 93u16.saturating_sub(most.min(93) as u16);
    put_entry(memory, 1, entry_start(last, extra), &empty_of(left));
    put_word(memory, 1, entry_start(last + 1, extra), END);
}

// Writes what stands on the volume, as far as there is memory.
pub fn put_volume(memory: &mut [u8], volume: Volume) {
    match volume {
        Volume::Blank => {}
        Volume::System(extra) => put_system(memory, extra),
        Volume::Full(extra) => put_full(memory, extra),
    }
}
