// The size of a level and the header words of segments.
ghost use Rattle.rulebook.specs.Headers.{RuleOne, RuleTwo, RuleThree, RuleFive, RuleSeven};

// Rule 1 holds exactly where the blocks of the level are found to be 9 or more.
pub fn rule_one()
    ensures { RuleOne }
{}

// Rule 2 holds exactly where the directory is found to fit the level.
pub fn rule_two()
    ensures { RuleTwo }
{}

// Rule 3 holds exactly where the segments in use are found to be from 1 to all.
pub fn rule_three()
    ensures { RuleThree }
{}

// Rule 5 holds exactly where the extra bytes are found sound.
pub fn rule_five()
    ensures { RuleFive }
{}

// Rule 7 holds exactly where the segments are found contiguous.
pub fn rule_seven()
    ensures { RuleSeven }
{}
