// A pack and the calls on it.
ghost use Rattle.std.specs.Prelude.{◌≡◌, ◌≤◌, length, IfOk, None};
ghost use Rattle.device.specs.Held.{shows};
ghost use Rattle.volume.specs.Initial.{init_answer};
ghost use Rattle.level.specs.Lookups.{lookup_answer, read_fetched, read_answer, read_buffer};
ghost use Rattle.files.specs.Directories.{level_listing, directory_answer, directory_after};
ghost use Rattle.files.specs.States.{state_of, new_state, deepest, initialized};

use crate::list::list_level;
use device::Device;
use layers::levels::Levels;
use level::lookup::{lookup, read_file};
use volume::fault::FileFault;
use volume::initial::initialize;

// A device with its mounted containers. Each call works on the deepest level.
#[derive(Drop)]
pub struct Pack<D: Device> {
    levels: Levels<D>,
}

impl<D: Device> Pack<D> {
    // A pack on the whole of a device.
    pub fn over(below: D) -> Pack<D>
        ensures state { state_of D.Device.held result ≡ new_state (D.Device.held below) }
        ensures below { result.levels.below ≡ below }
    {
        Pack {
            levels: Levels::over(below),
        }
    }

    // The mounted containers, for reading.
    pub fn levels(&self) -> &Levels<D>
        ensures { result.now ≡ self.now.levels }
    {
        &self.levels
    }

    // Makes a new volume of the deepest level, with a directory of so many segments.
    pub fn initialize(&mut self, segments: u8) -> Result<(), FileFault>
        ensures answer { result ≡ init_answer segments (deepest (state_of D.Device.held self.old)) }
        ensures state { state_of D.Device.held self.new ≡ initialized segments (state_of D.Device.held self.old) }
        ensures fixed { D.Device.fixed self.new.levels.below ≡ D.Device.fixed self.old.levels.below }
    {
        initialize(&mut self.levels, segments)
    }

    // LOOKUP on the deepest level: start, length and date word of a file.
    pub fn lookup(&self, work: &mut [u8], name: &[u8; 9]) -> Result<(u32, u16, u16), FileFault>
        ensures { result ≡ lookup_answer (length work.old) (deepest (state_of D.Device.held self.now)) None name.now }
    {
        lookup(&self.levels, work, None, name)
    }

    // READ on the deepest level: one block of a file.
    pub fn read(
        &self,
        work: &mut [u8],
        name: &[u8; 9],
        block: u16,
        into: &mut [u8; 512],
    ) -> Result<(), FileFault>
        ensures answer { result ≡ read_answer (read_fetched (length work.old) (deepest (state_of D.Device.held self.now)) None name.now block) }
        ensures buffer { into.new ≡ read_buffer (read_fetched (length work.old) (deepest (state_of D.Device.held self.now)) None name.now block) into.old }
    {
        read_file(&self.levels, work, None, name, block, into)
    }

    // DIRECTORY: the listing of the deepest level in the caller's buffer, and its length.
    pub fn directory(&self, work: &mut [u8], listing: &mut [u8]) -> Result<usize, FileFault>
        ensures answer { result ≡ directory_answer (level_listing (length work.old) (deepest (state_of D.Device.held self.now)) None) (length listing.old) }
        ensures listing { listing.new ≡ directory_after (level_listing (length work.old) (deepest (state_of D.Device.held self.now)) None) listing.old }
        ensures fits { IfOk result (λ n. n ≤ length listing.new) }
    {
        list_level(&self.levels, work, listing)
    }
}
