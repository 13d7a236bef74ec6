// A device over the caller's memory.
ghost use Rattle.std.specs.Prelude.{◌≡◌, ℕ, ◌+◌, ◌*◌, ◌/◌, ◌<◌, ◌≤◌, false, length, OnOk, slice_index};
ghost use Rattle.device.specs.Held.{held_image};
ghost use Rattle.device.specs.Fixed.{fixed_image};
ghost use Rattle.device.specs.Images.{image, image_blocks, listed, Stored};
ghost use Rattle.device.specs.Stacks.{shown};
ghost use Rattle.device.specs.Answers.{fetch, answered};

use crate::Device;
use crate::fault::DeviceFault;

// Copies block b of the memory.
pub(crate) fn load(memory: &[u8], b: u32, into: &mut [u8; 512])
    requires { 512 * b + 512 ≤ length memory.now }
    ensures { (o : ℕ) → o < 512 → slice_index into.new o ≡ slice_index memory.now (512 * b + o) }
{
    let at = 512 * b as usize;
    into.copy_from_slice(&memory[at..at + 512]);
}

// Writes block b of the memory.
pub(crate) fn store(memory: &mut [u8], b: u32, from: &[u8; 512])
    requires { 512 * b + 512 ≤ length memory.old }
    ensures { Stored memory.old from.now b memory.new }
{
    let at = 512 * b as usize;
    memory[at..at + 512].copy_from_slice(from);
}

// The caller's memory as a device: a block for each whole 512 bytes, up to 8,388,608. Of the list of bad blocks the first 32
// entries count.
#[derive(Drop)]
pub struct Image<'a, 'b> {
    memory: &'a mut [u8],
    bad: &'b [u32],
}

// Whether b is among the first 32.
fn is_listed(bad: &[u32], b: u32) -> bool
    ensures { result ≡ listed bad.now b }
{
    bad[..bad.len().min(32)].contains(&b)
}

impl<'a, 'b> Image<'a, 'b> {
    pub fn over(memory: &'a mut [u8], bad: &'b [u32]) -> Image<'a, 'b>
        ensures memory { result.memory ≡ memory.entry }
        ensures bad { result.bad ≡ bad.entry }
    {
        Image { memory, bad }
    }

    // All bytes of the memory, those behind the last block too.
    pub fn bytes(&self) -> &[u8]
        ensures { result.now ≡ self.now.memory.now }
    {
        self.memory
    }

    // Whether block b is there, and good. Always inlined: each read and write of a block asks it.
    #[inline(always)]
    fn check(&self, b: u32) -> Result<(), DeviceFault>
        ensures answer { result ≡ answered (fetch (shown (image self.now.memory.now self.now.bad.now)) b) }
        ensures inside { OnOk result (b < image_blocks self.now.memory.now) }
        ensures good { OnOk result (listed self.now.bad.now b ≡ false) }
    {
        if b >= self.size() {
            return Err(DeviceFault::PastEnd(b));
        }
        if is_listed(self.bad, b) {
            return Err(DeviceFault::BadBlock(b));
        }
        Ok(())
    }
}

impl<'a, 'b> Device for Image<'a, 'b> {
    ghost held = { λ m. held_image m.memory.now m.bad.now };

    ghost fixed = { λ m. fixed_image m.memory.ghost_name m.memory.now m.bad.now };

    fn size(&self) -> u32 {
        (self.memory.len() / 512).min(8_388_608) as u32
    }

    fn read(&self, b: u32, into: &mut [u8; 512]) -> Result<(), DeviceFault> {
        self.check(b)?;
        load(self.memory, b, into);
        Ok(())
    }

    fn write(&mut self, b: u32, from: &[u8; 512]) -> Result<(), DeviceFault> {
        self.check(b)?;
        store(self.memory, b, from);
        Ok(())
    }
}
