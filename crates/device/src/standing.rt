// Whether a layer can stand over what is below it: an answer and no refusal, since a layer that does not fit shows 0 blocks.
ghost use Rattle.std.specs.Prelude.{◌≡◌};
ghost use Rattle.device.specs.Faults.{standing_number, standing_of, blocks_by};

#[derive(Clone, Copy, Debug, PartialEq, Eq)]
pub enum Standing {
    Stands,
    DoesNotFit,
}

impl Standing {
    // The standing of a layer that fits what is below it, or does not.
    pub fn of(fits: bool) -> Standing
        ensures { result ≡ standing_of fits }
    {
        if fits {
            Standing::Stands
        } else {
            Standing::DoesNotFit
        }
    }

    // How many blocks a layer of so many shows.
    pub fn blocks(self, all: u32) -> u32
        ensures { result ≡ blocks_by self all }
    {
        match self {
            Standing::Stands => all,
            Standing::DoesNotFit => 0,
        }
    }

    // 0 for a layer that stands, 3 for one that does not fit what is below.
    // A method and no `From`, since every answer has it by this name.
    pub fn number(self) -> u8
        ensures { result ≡ standing_number self }
    {
        match self {
            Standing::Stands => 0,
            Standing::DoesNotFit => 3,
        }
    }
}
