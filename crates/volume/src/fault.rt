// Why a call on a volume is refused.
ghost use Rattle.std.specs.Prelude.{◌≡◌};
ghost use Rattle.volume.specs.Faults.{file_number, file_detail};
ghost use Rattle.volume.specs.declared.fault.FileFault.TheVariants.{OfDevice, NotSound, UnlawfulName};

use crate::rule::Rule;
use device::fault::DeviceFault;

#[derive(Clone, Copy, Debug, PartialEq, Eq)]
pub enum FileFault {
    OfDevice(DeviceFault),
    NotSound(Rule),
    UnlawfulName,
    NoSuchFile,
    NameExists,
    Protected,
    NoRoom,
    DirectoryFull,
    OutOfRange,
    TooDeep,
    NotMounted,
    EmptyContainer,
    UnlawfulDate,
    WorkspaceTooSmall,
    ListingTooSmall,
    OutputOpen,
    NoOutput,
}

impl FileFault {
    // The number that is returned for it. A method and no `From`, since every answer has it by this name.
    pub fn number(self) -> u8
        ensures { result ≡ file_number self }
    {
        match self {
            FileFault::OfDevice(e) => e.number(),
            FileFault::NotSound(_) => 5,
            FileFault::UnlawfulName => 6,
            FileFault::NoSuchFile => 7,
            FileFault::NameExists => 8,
            FileFault::Protected => 9,
            FileFault::NoRoom => 10,
            FileFault::DirectoryFull => 11,
            FileFault::OutOfRange => 12,
            FileFault::TooDeep | FileFault::NotMounted => 13,
            FileFault::EmptyContainer => 14,
            FileFault::UnlawfulDate => 15,
            FileFault::WorkspaceTooSmall | FileFault::ListingTooSmall => 18,
            FileFault::OutputOpen | FileFault::NoOutput => 19,
        }
    }

    // The block that the device refused, or the rule that is broken; else 0.
    pub fn detail(self) -> u32
        ensures { result ≡ file_detail self }
    {
        match self {
            FileFault::OfDevice(e) => e.block(),
            FileFault::NotSound(rule) => u32::from(rule.number()),
            _ => 0,
        }
    }
}

impl From<DeviceFault> for FileFault {
    ghost from_gives = { λ e r. r ≡ OfDevice e };

    fn from(e: DeviceFault) -> FileFault {
        FileFault::OfDevice(e)
    }
}

impl From<Rule> for FileFault {
    ghost from_gives = { λ e r. r ≡ NotSound e };

    fn from(e: Rule) -> FileFault {
        FileFault::NotSound(e)
    }
}

impl From<codec::name::UnlawfulName> for FileFault {
    ghost from_gives = { λ e r. r ≡ UnlawfulName };

    fn from(_e: codec::name::UnlawfulName) -> FileFault {
        FileFault::UnlawfulName
    }
}
