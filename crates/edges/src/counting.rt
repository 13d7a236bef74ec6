// A device that counts what is asked of it.
use device::Device;
use device::fault::DeviceFault;
use std::cell::Cell;

// What is below, and how many reads and writes came by, refused ones too.
#[derive(Drop)]
pub struct Counting<D: Device> {
    below: D,
    reads: Cell<u32>,
    writes: Cell<u32>,
}

impl<D: Device> Counting<D> {
    pub fn over(below: D) -> Counting<D> {
        Counting {
            below,
            reads: Cell::new(0),
            writes: Cell::new(0),
        }
    }

    pub fn below(&self) -> &D {
        &self.below
    }

    pub fn reads(&self) -> u32 {
        self.reads.get()
    }

    pub fn writes(&self) -> u32 {
        self.writes.get()
    }

    // Counts from 0 again.
    pub fn reset(&self) {
        self.reads.set(0);
        self.writes.set(0);
    }
}

impl<D: Device> Device for Counting<D> {
    ghost held = { λ c. D.Device.held c.below };

    ghost fixed = { λ c. D.Device.fixed c.below };

    fn size(&self) -> u32 {
        self.below.size()
    }

    fn read(&self, b: u32, into: &mut [u8; 512]) -> Result<(), DeviceFault> {
        self.reads.set(self.reads.get().wrapping_add(1));
        self.below.read(b, into)
    }

    fn write(&mut self, b: u32, from: &[u8; 512]) -> Result<(), DeviceFault> {
        self.writes.set(self.writes.get().wrapping_add(1));
        self.below.write(b, from)
    }
}
