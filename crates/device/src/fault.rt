// Why a device refuses a block, with the number of the block that it was asked for.
ghost use Rattle.std.specs.Prelude.{◌≡◌};
ghost use Rattle.device.specs.Faults.{fault_number, fault_block};

#[derive(Clone, Copy, Debug, PartialEq, Eq)]
pub enum DeviceFault {
    PastEnd(u32),
    BadBlock(u32),
}

impl DeviceFault {
    // 1 for a block past the end, 2 for a bad one. A method and no `From`, since every answer has it by this name.
    pub fn number(self) -> u8
        ensures { result ≡ fault_number self }
    {
        match self {
            DeviceFault::PastEnd(_) => 1,
            DeviceFault::BadBlock(_) => 2,
        }
    }

    // The block that was asked for.
    pub fn block(self) -> u32
        ensures { result ≡ fault_block self }
    {
        match self {
            DeviceFault::PastEnd(b) | DeviceFault::BadBlock(b) => b,
        }
    }
}
