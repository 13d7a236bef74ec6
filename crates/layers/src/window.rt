// A partition of a device.
ghost use Rattle.std.specs.Prelude.{◌≡◌, ℕ, ◌+◌, length};
ghost use Rattle.device.specs.Held.{shows};
ghost use Rattle.layers.specs.Windows.{window_standing, held_window};

use crate::part::{read_part, write_part};
use device::Device;
use device::fault::DeviceFault;
use device::standing::Standing;

// `length` blocks from block `start` of what is below.
#[derive(Drop)]
pub struct Window<D: Device> {
    below: D,
    start: u32,
    length: u32,
}

impl<D: Device> Window<D> {
    pub fn over(below: D, start: u32, length: u32) -> Window<D>
        ensures below { result.below ≡ below }
        ensures start { result.start ≡ start }
        ensures length { result.length ≡ length }
    {
        Window {
            below,
            start,
            length,
        }
    }

    // Whether all of its blocks are there.
    pub fn standing(&self) -> Standing
        ensures { result ≡ window_standing self.now.start self.now.length (length (shows (D.Device.held self.now.below))) }
    {
        let size = self.below.size();
        Standing::of(self.length <= size && self.start <= size - self.length)
    }

    // What it is over.
    pub fn below(&self) -> &D
        ensures { result.now ≡ self.now.below }
    {
        &self.below
    }
}

impl<D: Device> Device for Window<D> {
    ghost held = { λ w. held_window w.start w.length (D.Device.held w.below) };

    ghost fixed = { λ w. D.Device.fixed w.below };

    fn size(&self) -> u32 {
        self.standing().blocks(self.length)
    }

    fn read(&self, b: u32, into: &mut [u8; 512]) -> Result<(), DeviceFault> {
        read_part(&self.below, self.start, self.size(), b, into)
    }

    fn write(&mut self, b: u32, from: &[u8; 512]) -> Result<(), DeviceFault> {
        let count = (*self).size();
        write_part(&mut self.below, self.start, count, b, from)
    }
}
