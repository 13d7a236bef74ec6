// Devices: lists of blocks, each bad or good with 512 bytes. The trait, its two bottoms, and the laws of every pile of layers.
#![tactic(auto)]

ghost use Rattle.std.specs.Prelude.{◌≡◌, ℕ, ◌+◌, ◌<◌, ◌≤◌, length};
ghost use Rattle.device.specs.Held.{Held, shows};
ghost use Rattle.device.specs.Fixed.{Fixed};
ghost use Rattle.device.specs.Laws.{PileLaws};
ghost use Rattle.device.specs.Answers.{fetch, answered, filled, stored};

use crate::fault::DeviceFault;

pub mod borrowed;
pub mod fault;
pub mod image;
pub mod level;
pub mod scratch;
pub mod standing;

// A list of at most 8,388,608 blocks. No call changes how many there are or which ones are bad.
pub trait Device {
    // the blocks of the bottom and the layers over them
    ghost held: { Self → Held };

    // what no call changes
    ghost fixed: { Self → Fixed };

    // How many blocks it shows.
    fn size(&self) -> u32
        ensures { result ≡ length (shows (held self.now)) };

    // Fills the buffer with block b.
    fn read(&self, b: u32, into: &mut [u8; 512]) -> Result<(), DeviceFault>
        ensures answer { result ≡ answered (fetch (shows (held self.now)) b) }
        ensures buffer { into.new ≡ filled (fetch (shows (held self.now)) b) into.old };

    // Replaces block b.
    fn write(&mut self, b: u32, from: &[u8; 512]) -> Result<(), DeviceFault>
        ensures answer { result ≡ answered (fetch (shows (held self.old)) b) }
        ensures stack { (held self.new).stack ≡ stored (fetch (shows (held self.old)) b) (held self.old).stack b from.now }
        ensures fixed { fixed self.new ≡ fixed self.old };
}

// The laws of every pile of layers over every bottom.
pub fn pile_laws()
    ensures { PileLaws }
{}
