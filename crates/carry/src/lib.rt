// The bytes of a directory, and the directory as a value.
#![tactic(auto)]

ghost use Rattle.carry.specs.Laws.{SoundIsLawful, CarriedReads, CarriedIsSound};
ghost use Rattle.carry.specs.Writes.{WrittenCarries, AlteredCarries, PartedCarries};

// The bytes of a sound directory hold its value, which is lawful.
pub fn sound_is_lawful()
    ensures { SoundIsLawful }
{}

// Bytes that hold a lawful directory are read as that directory, and are sound.
pub fn carried_is_sound()
    ensures reads { CarriedReads }
    ensures sound { CarriedIsSound }
{}

// Bytes into which the changed segments are written hold the changed directory.
pub fn written_carries()
    ensures any { WrittenCarries }
    ensures one { AlteredCarries }
    ensures two { PartedCarries }
{}
