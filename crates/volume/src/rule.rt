// The rules of a sound level.
ghost use Rattle.std.specs.Prelude.{◌≡◌};
ghost use Rattle.volume.specs.Rules.{rule_number};

// Rules 1 to 9, in the order in which they are checked.
#[derive(Clone, Copy, Debug, PartialEq, Eq)]
pub enum Rule {
    LevelSize,
    DirectorySize,
    SegmentsInUse,
    Chain,
    ExtraBytes,
    Entries,
    Contiguous,
    Names,
    NameTwice,
}

impl Rule {
    // The number that is told where the rule is broken. A method and no `From`, since every answer has it by this name.
    pub fn number(self) -> u8
        ensures { result ≡ rule_number self }
    {
        match self {
            Rule::LevelSize => 1,
            Rule::DirectorySize => 2,
            Rule::SegmentsInUse => 3,
            Rule::Chain => 4,
            Rule::ExtraBytes => 5,
            Rule::Entries => 6,
            Rule::Contiguous => 7,
            Rule::Names => 8,
            Rule::NameTwice => 9,
        }
    }
}
