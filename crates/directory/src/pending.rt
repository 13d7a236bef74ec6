// An open output.

// Where the entry of an open output stands, and the bytes of it and of the next entry as they were written, with zeros behind
// them.
#[derive(Clone, Copy)]
pub struct Pending {
    pub segment: usize,
    pub index: usize,
    pub entries: [u8; 156],
}
