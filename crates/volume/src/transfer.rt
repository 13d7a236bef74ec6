// Blocks read or written one after another.
ghost use Rattle.std.specs.Prelude.{◌≡◌, ◌+◌, ◌*◌, ◌^◌, ◌<◌, ◌≤◌, replicate, Ok, slice_set};
ghost use Rattle.device.specs.Blocks.{good};
ghost use Rattle.device.specs.Held.{shows};
ghost use Rattle.device.specs.Stacks.{Became};
ghost use Rattle.volume.specs.Transfers.{readable, AllGood, halves, overwritten};

use device::Device;
use device::fault::DeviceFault;

// Reads n blocks from b on, up to the first that is refused. For our other crates, as those below: the caller has checked the range, and that
// blocks to be written are good.
pub fn sweep<D: Device>(d: &D, b: u32, n: u32) -> Result<(), DeviceFault>
    requires { b + n < 2 ^ 32 }
    ensures { result ≡ readable (shows (D.Device.held d.now)) b n }
{
    let mut buffer = [0; 512];
    for k in b..b + n {
        d.read(k, &mut buffer)?;
    }
    Ok(())
}

// Writes block b, which is known to be good. One record for its three clauses, and for those below, would take six parameters.
pub(crate) fn write_known<D: Device>(
    d: &mut D,
    b: u32,
    bytes: &[u8; 512],
) -> Result<(), DeviceFault>
    requires { AllGood (shows (D.Device.held d.old)) b (b + 1) }
    ensures answer { result ≡ Ok tt }
    ensures after { Became (D.Device.held d.old).stack (slice_set (shows (D.Device.held d.old)) b (good bytes.now)) (D.Device.held d.new).stack }
    ensures fixed { D.Device.fixed d.new ≡ D.Device.fixed d.old }
{
    d.write(b, bytes)
}

// Writes segment k, whose blocks are known to be good.
pub fn store_segment<D: Device>(d: &mut D, k: u32, bytes: &[u8; 1024]) -> Result<(), DeviceFault>
    requires range { k ≤ 31 }
    requires known { AllGood (shows (D.Device.held d.old)) (4 + 2 * k) (6 + 2 * k) }
    ensures answer { result ≡ Ok tt }
    ensures after { Became (D.Device.held d.old).stack (overwritten (shows (D.Device.held d.old)) (4 + 2 * k) (halves bytes.now)) (D.Device.held d.new).stack }
    ensures fixed { D.Device.fixed d.new ≡ D.Device.fixed d.old }
{
    let (halves, _) = bytes.as_chunks::<512>();
    write_known(d, 4 + 2 * k, &halves[0])?;
    write_known(d, 5 + 2 * k, &halves[1])
}

// Writes zeros to n blocks from b on, which are known to be good.
pub fn zero_blocks<D: Device>(d: &mut D, b: u32, n: u32) -> Result<(), DeviceFault>
    requires range { b + n < 2 ^ 32 }
    requires known { AllGood (shows (D.Device.held d.old)) b (b + n) }
    ensures answer { result ≡ Ok tt }
    ensures after { Became (D.Device.held d.old).stack (overwritten (shows (D.Device.held d.old)) b (replicate n (replicate 512 0))) (D.Device.held d.new).stack }
    ensures fixed { D.Device.fixed d.new ≡ D.Device.fixed d.old }
{
    for k in b..b + n {
        write_known(d, k, &[0; 512])?;
    }
    Ok(())
}
