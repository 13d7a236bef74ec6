// Where files, empties and the tentative entry of a sound directory stand.
#![tactic(auto)]

ghost use Rattle.places.specs.Laws.{FirstStarts, FileIsTold, TentativeIsTold, EmptyIsTold, LookupAgrees};

pub mod choose;
pub mod find;
pub mod place;

// The first entry of a kind starts where its place says.
pub fn first_starts()
    ensures { FirstStarts }
{}

// What `find_place` answers, in the words of the directory as a value.
pub fn file_told()
    ensures { FileIsTold }
{}

// What `find_tentative` answers.
pub fn tentative_told()
    ensures { TentativeIsTold }
{}

// What `choose` answers.
pub fn empty_told()
    ensures { EmptyIsTold }
{}

// LOOKUP finds the file that the directory as a value has.
pub fn lookup_agrees()
    ensures { LookupAgrees }
{}
