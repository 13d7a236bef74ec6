// A stretch of the blocks below, as the blocks of a layer.
ghost use Rattle.std.specs.Prelude.{◌≡◌, length};
ghost use Rattle.device.specs.Held.{shows};
ghost use Rattle.device.specs.Answers.{answered, filled};
ghost use Rattle.layers.specs.Parts.{PartIsThere, part_fetch, part_stored};

use device::Device;
use device::fault::DeviceFault;

// Reads block b of the `count` blocks from block `first` of what is below.
pub(crate) fn read_part<D: Device>(
    below: &D,
    first: u32,
    count: u32,
    b: u32,
    into: &mut [u8; 512],
) -> Result<(), DeviceFault>
    requires { PartIsThere first count (length (shows (D.Device.held below.now))) }
    ensures answer { result ≡ answered (part_fetch first count (shows (D.Device.held below.now)) b) }
    ensures buffer { into.new ≡ filled (part_fetch first count (shows (D.Device.held below.now)) b) into.old }
{
    if b >= count {
        return Err(DeviceFault::PastEnd(b));
    }
    below
        .read(first + b, into)
        .map_err(|_| DeviceFault::BadBlock(b))
}

// Writes it. Not one function with the read: that takes what is below to look at, and this to change.
pub(crate) fn write_part<D: Device>(
    below: &mut D,
    first: u32,
    count: u32,
    b: u32,
    from: &[u8; 512],
) -> Result<(), DeviceFault>
    requires { PartIsThere first count (length (shows (D.Device.held below.old))) }
    ensures answer { result ≡ answered (part_fetch first count (shows (D.Device.held below.old)) b) }
    ensures stack { (D.Device.held below.new).stack ≡ part_stored first count (D.Device.held below.old).stack b from.now }
    ensures fixed { D.Device.fixed below.new ≡ D.Device.fixed below.old }
{
    if b >= count {
        return Err(DeviceFault::PastEnd(b));
    }
    (*below)
        .write(first + b, from)
        .map_err(|_| DeviceFault::BadBlock(b))
}
