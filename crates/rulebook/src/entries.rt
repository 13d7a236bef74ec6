// The entries of segments.
ghost use Rattle.rulebook.specs.Entries.{RuleSixSegments, RuleSixStatuses};
ghost use Rattle.rulebook.specs.Order.{EntriesRead, EntriesInOrder};

// Rule 6, of the entries of each segment, holds exactly where each segment is found lawful.
pub fn rule_six_segments()
    ensures { RuleSixSegments }
{}

// Rule 6, of tentative entries, holds exactly where an open output, if there is one, is found to stand.
pub fn rule_six_statuses()
    ensures { RuleSixStatuses }
{}

// The entries of a segment are read from its words.
pub fn entries_read()
    ensures { EntriesRead }
{}

// The entries of a chain are those of its segments in order, each beginning where the one before ends.
pub fn entries_in_order()
    ensures { EntriesInOrder }
{}
