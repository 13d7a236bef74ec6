// A block below, held in memory. The sectors of a floppy block that lie in one block below follow one another, so that the last
// block read serves all of them.
ghost use Rattle.std.specs.Prelude.{◌≡◌, length, Some, None};
ghost use Rattle.device.specs.Held.{shows};
ghost use Rattle.device.specs.Answers.{fetch, answered};
ghost use Rattle.floppy.specs.Buffers.{is_held, loaded, saved, Current, Readable};

use device::Device;
use device::fault::DeviceFault;

// The bytes lie beside the block's number, since a read fills them in place.
#[derive(Drop)]
pub(crate) struct Buffer {
    pub(crate) block: Option<u32>,
    pub(crate) bytes: [u8; 512],
}

impl Buffer {
    pub(crate) fn empty() -> Buffer
        ensures block { result.block ≡ None }
        ensures long { length result.bytes ≡ 512 }
    {
        Buffer {
            block: None,
            bytes: [0; 512],
        }
    }

    fn holds(&self, b: u32) -> bool
        ensures { result ≡ is_held self.now.block b }
    {
        self.block == Some(b)
    }

    // Reads block b into the buffer.
    fn load<D: Device>(&mut self, below: &D, b: u32) -> Result<(), DeviceFault>
        ensures answer { result ≡ answered (fetch (shows (D.Device.held below.now)) b) }
        ensures buffer { self.new ≡ loaded (fetch (shows (D.Device.held below.now)) b) b self.old }
    {
        below.read(b, &mut self.bytes)?;
        self.block = Some(b);
        Ok(())
    }

    // Reads block b, unless it is the one held.
    pub(crate) fn seek<D: Device>(&mut self, below: &D, b: u32) -> Result<(), DeviceFault>
        requires { Current self.old (shows (D.Device.held below.now)) }
        ensures answer { result ≡ answered (fetch (shows (D.Device.held below.now)) b) }
        ensures buffer { self.new ≡ loaded (fetch (shows (D.Device.held below.now)) b) b self.old }
    {
        if self.holds(b) {
            return Ok(());
        }
        self.load(below, b)
    }

    // Writes the block held.
    pub(crate) fn save<D: Device>(&self, below: &mut D)
        ensures stack { (D.Device.held below.new).stack ≡ saved self.now (D.Device.held below.old).stack }
        ensures fixed { D.Device.fixed below.new ≡ D.Device.fixed below.old }
    {
        if let Some(b) = self.block {
            let _ = (*below).write(b, &self.bytes);
        }
    }

    // Goes on to block b, unless it is the one held: that one is written, and block b read.
    pub(crate) fn turn<D: Device>(&mut self, below: &mut D, b: u32)
        requires long { length self.old.bytes ≡ 512 }
        requires good { Readable (shows (D.Device.held below.old)) b }
        ensures long { length self.new.bytes ≡ 512 }
        ensures block { self.new.block ≡ Some b }
        ensures stack { saved self.new (D.Device.held below.new).stack ≡ saved self.old (D.Device.held below.old).stack }
        ensures fixed { D.Device.fixed below.new ≡ D.Device.fixed below.old }
    {
        if !self.holds(b) {
            self.save(below);
            let _ = self.load(below, b);
        }
    }
}
