// The table of levels: the whole device, and the containers mounted one inside the other.
ghost use Rattle.std.specs.Prelude.{◌≡◌, length};
ghost use Rattle.layers.specs.Nested.{origin, Nested};
ghost use Rattle.layers.specs.Mounts.{new_table, deepest_level, mount_answer, mount_table, dismount_answer, dismount_table, fault_number};

use device::level::Level;
use std::marker::Model;

// Why a table refuses a level.
#[derive(Clone, Copy, Debug, PartialEq, Eq)]
pub enum LevelFault {
    TooDeep,
    NotMounted,
    Outside,
}

impl LevelFault {
    // 13 for the eighth container and for one too few, 12 for a start or length outside the level around.
    // A method and no `From`, since every answer has it by this name.
    pub fn number(self) -> u8
        ensures { result ≡ fault_number self }
    {
        match self {
            LevelFault::TooDeep | LevelFault::NotMounted => 13,
            LevelFault::Outside => 12,
        }
    }
}

// Record 0 is the whole device, and the `depth` records after it are the mounted levels, each inside the level around it.
#[derive(Clone, Copy)]
pub struct LevelTable {
    // A rule of the project: eight records, the whole device first.
    records: [Level; 8],
    depth: usize,
}

impl Model for LevelTable {
    ghost use Rattle.std.specs.Prelude.{◌≡◌, ◌≤◌, ◌∷◌, ◌++◌, length, take, drop, slice_index_or};
    ghost use Rattle.device.specs.Fixed.{Table};
    ghost use Rattle.layers.specs.Nested.{LevelsInside};
    ghost use Rattle.layers.specs.Mounts.{level};
    ghost use Rattle.layers.specs.Records.{records_back, depth_back};

    ghost Value = { Table };

    ghost view = { λ t. record { whole = slice_index_or t.records 0 (level 0 0); mounted = take t.depth (drop 1 t.records); spare = drop t.depth (drop 1 t.records) } };

    ghost invariant = { λ t. (length t.records ≡ 8) × (t.depth ≤ 7) × LevelsInside (slice_index_or t.records 0 (level 0 0)) (take t.depth (drop 1 t.records)) };

    ghost inverse = { λ v. record { records = v.whole ∷ v.mounted ++ v.spare; depth = length v.mounted } };

    ghost inverse_ok = { λ t h i. record { records = records_back t.records t.depth (level 0 0) h.0 i; depth = depth_back t.records t.depth h.0 h.1 i } };
}

// Sets a record that is lent.
fn set_level(level: &mut Level, start: u32, length: u32)
    ensures { level.new ≡ record { start = start; length = length } }
{
    level.start = start;
    level.length = length;
}

impl LevelTable {
    // The table of a device of so many blocks, with no container mounted.
    pub(crate) fn new(blocks: u32) -> LevelTable
        ensures { result ≡ new_table blocks }
    {
        LevelTable {
            records: [Level {
                start: 0,
                length: blocks,
            }; 8],
            depth: 0,
        }
    }

    // How many containers are mounted.
    pub(crate) fn depth(&self) -> usize
        ensures { result ≡ length self.now.mounted }
    {
        self.depth
    }

    // The record of the whole device.
    pub(crate) fn whole(&self) -> Level
        ensures { result ≡ self.now.whole }
    {
        self.records[0]
    }

    // The record of the deepest level.
    #[tactic(auto, using(crate::proofs::Nests::innermost_at))]
    pub(crate) fn deepest(&self) -> Level
        ensures level { result ≡ deepest_level self.now }
        ensures nested { Nested self.now.whole self.now.mounted }
    {
        self.records[self.depth]
    }

    // The block of the device that is the first of the deepest level.
    pub(crate) fn origin(&self) -> u32
        ensures first { result ≡ origin self.now.mounted }
        ensures nested { Nested self.now.whole self.now.mounted }
    {
        self.records[1..=self.depth]
            .iter()
            .map(|level| level.start)
            .sum()
    }

    // Mounts the level of `length` blocks from block `start` of the deepest.
    pub(crate) fn mount(&mut self, start: u32, length: u32) -> Result<(), LevelFault>
        ensures answer { result ≡ mount_answer self.old start length }
        ensures after { self.new ≡ mount_table self.old start length }
    {
        if self.depth >= 7 {
            return Err(LevelFault::TooDeep);
        }
        let around = self.deepest();
        if length > around.length || start > around.length - length {
            return Err(LevelFault::Outside);
        }
        let depth = self.depth + 1;
        set_level(&mut self.records[depth], start, length);
        self.depth = depth;
        Ok(())
    }

    // Leaves the deepest level for the one around it.
    #[tactic(auto, using(crate::proofs::Nests::inside_fewer))]
    pub(crate) fn dismount(&mut self) -> Result<(), LevelFault>
        ensures answer { result ≡ dismount_answer self.old }
        ensures after { self.new ≡ dismount_table self.old }
    {
        if self.depth == 0 {
            return Err(LevelFault::NotMounted);
        }
        self.depth -= 1;
        Ok(())
    }
}
