// A device that keeps its blocks itself.
ghost use Rattle.std.specs.Prelude.{◌≡◌, ◌<◌, OnOk, replicate};
ghost use Rattle.device.specs.Held.{held_scratch};
ghost use Rattle.device.specs.Fixed.{nothing_fixed};
ghost use Rattle.device.specs.Images.{scratch};
ghost use Rattle.device.specs.Stacks.{shown};
ghost use Rattle.device.specs.Answers.{fetch, answered};

use crate::Device;
use crate::fault::DeviceFault;
use crate::image::{load, store};

// 40 good blocks, zero at first.
#[derive(Drop)]
pub struct Scratch {
    bytes: [u8; 20480],
}

impl Scratch {
    pub fn new() -> Scratch
        ensures { result.bytes ≡ replicate 20480 0 }
    {
        Scratch { bytes: [0; 20480] }
    }

    // Whether block b is there: the number stands here by itself, and not as an answer of `size`.
    fn check(&self, b: u32) -> Result<(), DeviceFault>
        ensures answer { result ≡ answered (fetch (shown (scratch self.now.bytes)) b) }
        ensures inside { OnOk result (b < 40) }
    {
        if b < 40 {
            Ok(())
        } else {
            Err(DeviceFault::PastEnd(b))
        }
    }
}

impl Device for Scratch {
    ghost held = { λ s. held_scratch s.bytes };

    ghost fixed = { λ s. nothing_fixed };

    fn size(&self) -> u32 {
        40
    }

    fn read(&self, b: u32, into: &mut [u8; 512]) -> Result<(), DeviceFault> {
        self.check(b)?;
        load(&self.bytes, b, into);
        Ok(())
    }

    fn write(&mut self, b: u32, from: &[u8; 512]) -> Result<(), DeviceFault> {
        self.check(b)?;
        store(&mut self.bytes, b, from);
        Ok(())
    }
}
