// A device with containers mounted one inside the other, of which the deepest is shown.
ghost use Rattle.std.specs.Prelude.{◌≡◌, ℕ, ◌+◌, length};
ghost use Rattle.device.specs.Held.{shows};
ghost use Rattle.device.specs.Fixed.{tabled};
ghost use Rattle.layers.specs.Mounts.{new_table, mount_answer, mount_table, dismount_answer, dismount_table};
ghost use Rattle.layers.specs.LevelStacks.{levels_standing, held_levels};

use crate::part::{read_part, write_part};
use crate::table::{LevelFault, LevelTable};
use device::Device;
use device::fault::DeviceFault;
use device::standing::Standing;

// The deepest mounted level of what is below, or all of it where none is mounted.
#[derive(Drop)]
pub struct Levels<D: Device> {
    below: D,
    table: LevelTable,
}

impl<D: Device> Levels<D> {
    // With no container mounted.
    pub fn over(below: D) -> Levels<D>
        ensures below { result.below ≡ below }
        ensures table { result.table ≡ new_table (length (shows (D.Device.held below))) }
    {
        let table = LevelTable::new(below.size());
        Levels { below, table }
    }

    // Whether what is below has as many blocks as when the table was made.
    pub fn standing(&self) -> Standing
        ensures { result ≡ levels_standing self.now.table (length (shows (D.Device.held self.now.below))) }
    {
        Standing::of(self.below.size() == self.table.whole().length)
    }

    // What it is over.
    pub fn below(&self) -> &D
        ensures { result.now ≡ self.now.below }
    {
        &self.below
    }

    // How many containers are mounted.
    pub fn depth(&self) -> usize
        ensures { result ≡ length self.now.table.mounted }
    {
        self.table.depth()
    }

    // Mounts the level of `length` blocks from block `start` of the deepest.
    pub fn mount(&mut self, start: u32, length: u32) -> Result<(), LevelFault>
        ensures answer { result ≡ mount_answer self.old.table start length }
        ensures table { self.new.table ≡ mount_table self.old.table start length }
        ensures below { self.new.below ≡ self.old.below }
    {
        self.table.mount(start, length)
    }

    // Leaves the deepest level for the one around it.
    pub fn dismount(&mut self) -> Result<(), LevelFault>
        ensures answer { result ≡ dismount_answer self.old.table }
        ensures table { self.new.table ≡ dismount_table self.old.table }
        ensures below { self.new.below ≡ self.old.below }
    {
        self.table.dismount()
    }
}

impl<D: Device> Device for Levels<D> {
    ghost held = { λ l. held_levels l.table (D.Device.held l.below) };

    ghost fixed = { λ l. tabled l.table (D.Device.fixed l.below) };

    fn size(&self) -> u32 {
        self.standing().blocks(self.table.deepest().length)
    }

    fn read(&self, b: u32, into: &mut [u8; 512]) -> Result<(), DeviceFault> {
        read_part(&self.below, self.table.origin(), self.size(), b, into)
    }

    fn write(&mut self, b: u32, from: &[u8; 512]) -> Result<(), DeviceFault> {
        let count = (*self).size();
        write_part(&mut self.below, self.table.origin(), count, b, from)
    }
}
