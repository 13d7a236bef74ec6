// The names of files.
ghost use Rattle.rulebook.specs.Names.{RuleEight, RuleNine};

// Rule 8 holds exactly where each entry is found well named.
pub fn rule_eight()
    ensures { RuleEight }
{}

// Rule 9 holds exactly where all entries are found apart.
pub fn rule_nine()
    ensures { RuleNine }
{}
