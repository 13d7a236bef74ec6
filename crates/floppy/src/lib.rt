// The RX01 floppy as a layer: 494 blocks over at least 501.
#![tactic(auto)]

ghost use Rattle.std.specs.Prelude.{◌≡◌, ◌<◌, length, slice_set};
ghost use Rattle.device.specs.Blocks.{good};
ghost use Rattle.device.specs.Stacks.{put};
ghost use Rattle.device.specs.Answers.{fetch};
ghost use Rattle.device.specs.Held.{shows};
ghost use Rattle.floppy.specs.Floppies.{floppy_standing, FloppyRows};
ghost use Rattle.floppy.specs.Held.{held_floppy};
ghost use Rattle.floppy.specs.Buffers.{Readable};

use crate::buffer::Buffer;
use crate::sectors::{copy_sector, sector_at};
use device::Device;
use device::fault::DeviceFault;
use device::standing::Standing;

mod buffer;
mod sectors;

#[derive(Drop)]
pub struct Floppy<D: Device> {
    below: D,
}

impl<D: Device> Floppy<D> {
    pub fn over(below: D) -> Floppy<D>
        ensures { result.below ≡ below }
    {
        Floppy { below }
    }

    // What the floppy lies on.
    pub fn below(&self) -> &D
        ensures { result.now ≡ self.now.below }
    {
        &self.below
    }

    // A floppy of 77 tracks takes 501 blocks below.
    pub fn standing(&self) -> Standing
        ensures { result ≡ floppy_standing (length (shows (D.Device.held self.now.below))) }
    {
        Standing::of(self.below.size() >= 501)
    }

    // The sectors of block b, put together. Each block below is read at most once.
    #[tactic(auto, using(crate::proofs::Places::few_blocks))]
    fn gather(&self, b: u32) -> Result<[u8; 512], DeviceFault>
        ensures { result ≡ fetch (shows (held_floppy (D.Device.held self.now.below))) b }
    {
        if b >= self.size() {
            return Err(DeviceFault::PastEnd(b));
        }
        let mut held = Buffer::empty();
        let mut bytes = [0; 512];
        for i in 0..4 {
            let place = sector_at(4 * b + i);
            held.seek(&self.below, place / 4)
                .map_err(|_| DeviceFault::BadBlock(b))?;
            copy_sector(&held.bytes, place % 4, &mut bytes, i);
        }
        Ok(bytes)
    }

    // Puts the sectors of block b where they lie. Each block below is read and written once.
    fn scatter(&mut self, b: u32, from: &[u8; 512])
        requires low { b < 494 }
        requires good { Readable (shows (held_floppy (D.Device.held self.old.below))) b }
        ensures stack { (held_floppy (D.Device.held self.new.below)).stack ≡ put (held_floppy (D.Device.held self.old.below)).stack (slice_set (shows (held_floppy (D.Device.held self.old.below))) b (good from.now)) }
        ensures fixed { D.Device.fixed self.new.below ≡ D.Device.fixed self.old.below }
    {
        let mut held = Buffer::empty();
        for n in 0..4 {
            let place = sector_at(4 * b + n);
            held.turn(&mut self.below, place / 4);
            copy_sector(from, n, &mut held.bytes, place % 4);
        }
        held.save(&mut self.below);
    }
}

impl<D: Device> Device for Floppy<D> {
    ghost held = { λ f. held_floppy (D.Device.held f.below) };

    ghost fixed = { λ f. D.Device.fixed f.below };

    fn size(&self) -> u32 {
        self.standing().blocks(494)
    }

    fn read(&self, b: u32, into: &mut [u8; 512]) -> Result<(), DeviceFault> {
        *into = self.gather(b)?;
        Ok(())
    }

    // Looks at each block below before it writes the first.
    fn write(&mut self, b: u32, from: &[u8; 512]) -> Result<(), DeviceFault> {
        self.gather(b)?;
        self.scatter(b, from);
        Ok(())
    }
}

// Three rows of the sector table.
pub fn floppy_rows()
    ensures { FloppyRows }
{}
