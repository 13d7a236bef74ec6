// Why a field is refused.
ghost use Rattle.std.specs.Prelude.{◌≡◌};
ghost use Rattle.runfile.specs.Faults.{field_number, field_detail};
ghost use Rattle.runfile.specs.declared.fault.FieldFault.TheVariants.{OfFile};

use volume::fault::FileFault;

#[derive(Clone, Copy, Debug, PartialEq, Eq)]
pub enum FieldFault {
    OfFile(FileFault),
    UnknownTag,
    WrongLength,
}

impl FieldFault {
    // The number of the refusal: 16 where the field itself is at fault, else the file call's.
    // A method and no `From`, since every answer has it by this name.
    pub fn number(self) -> u8
        ensures { result ≡ field_number self }
    {
        match self {
            FieldFault::OfFile(e) => e.number(),
            FieldFault::UnknownTag | FieldFault::WrongLength => 16,
        }
    }

    // The block or the rule that goes with it, else 0.
    pub fn detail(self) -> u32
        ensures { result ≡ field_detail self }
    {
        match self {
            FieldFault::OfFile(e) => e.detail(),
            FieldFault::UnknownTag | FieldFault::WrongLength => 0,
        }
    }
}

impl From<FileFault> for FieldFault {
    ghost from_gives = { λ e r. r ≡ OfFile e };

    fn from(e: FileFault) -> FieldFault {
        FieldFault::OfFile(e)
    }
}
