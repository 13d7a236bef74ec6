// The first broken rule of 3 to 9.
ghost use Rattle.rulebook.specs.First.{RulesDecided, FirstTold};

// No rule is told as broken exactly where all are kept.
pub fn rules_decided()
    ensures { RulesDecided }
{}

// A rule is told exactly where it is broken and those before it are kept.
pub fn first_broken()
    ensures { FirstTold }
{}
