ghost use Rattle.std.specs.Prelude.{◌∷◌};
ghost use Rattle.device.specs.Fixed.{Fixed, lent_by};

use crate::Device;
use crate::fault::DeviceFault;

// A device that is lent is a device.
impl<'a, D: Device> Device for &'a mut D {
    ghost held = { λ r. D.Device.held r.now };

    ghost fixed = { λ r. lent_by r.ghost_name (D.Device.fixed r.now) };

    fn size(&self) -> u32 {
        (**self).size()
    }

    fn read(&self, b: u32, into: &mut [u8; 512]) -> Result<(), DeviceFault> {
        (**self).read(b, into)
    }

    fn write(&mut self, b: u32, from: &[u8; 512]) -> Result<(), DeviceFault> {
        (**self).write(b, from)
    }
}
