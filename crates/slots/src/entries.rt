// The entries of a segment as a list. A file apart from `bytes`, since the definitions that `bytes` cites name the struct.
ghost use Rattle.std.specs.Prelude.{◌≤◌};

use volume::entry::Entry;

// The entries of a segment: the first of 72, as many as the count says.
#[derive(Clone, Copy)]
pub struct Slots {
    pub count: usize,
    pub entries: [Entry; 72],
    pub ghost few: { count ≤ 72 },
}
