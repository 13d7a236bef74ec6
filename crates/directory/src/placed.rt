// Entries in their places.
use codec::name::Name;
use volume::entry::Status;

// What an entry says, the segment that it stands in, its index there, and the block at which it starts.
#[derive(Clone, Copy)]
pub struct Placed {
    pub status: Status,
    pub name: Name,
    pub length: u16,
    pub date: u16,
    pub segment: usize,
    pub index: usize,
    pub start: u32,
}

// A place on the way along the chain: which segment of it, which entry there, and the block at which that starts.
#[derive(Clone, Copy)]
pub struct Spot {
    pub place: usize,
    pub index: usize,
    pub start: u32,
}
