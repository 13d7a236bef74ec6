// A record of a level table: where a level starts in the level around it, and how many blocks it has. What a device keeps fixed
// speaks of it, so it stands here.
#[derive(Clone, Copy, Debug, Default, PartialEq, Eq)]
pub struct Level {
    pub start: u32,
    pub length: u32,
}
