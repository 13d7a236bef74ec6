// Where entries stand.

// An entry: its segment's place in the chain, counted from 0, the segment's number, its index there, the block at which it
// starts, and its blocks.
#[derive(Clone, Copy)]
pub struct EntryPlace {
    pub place: usize,
    pub segment: usize,
    pub index: usize,
    pub start: u32,
    pub length: u16,
}

// A file: its entry, its date, and whether it is protected.
#[derive(Clone, Copy)]
pub struct FilePlace {
    pub entry: EntryPlace,
    pub date: u16,
    pub protected: bool,
}

// An empty: its entry, and how many of its blocks an ask gets.
#[derive(Clone, Copy)]
pub struct EmptyPlace {
    pub entry: EntryPlace,
    pub given: u16,
}
