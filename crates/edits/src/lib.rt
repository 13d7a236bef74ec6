// The directory of a volume as a value: its edits, and what they keep.
#![tactic(auto)]

ghost use Rattle.edits.specs.Asks.{WorkedRows};
ghost use Rattle.edits.specs.Tested.{LawfulDecided, InitialLawful, FilesListed, UsedAndFree};
ghost use Rattle.edits.specs.Choices.{AsksGet};
ghost use Rattle.edits.specs.Laid.{EditLays, SplitLays, EmptiedLays, SplicedLays, SplicedTwoLays};
ghost use Rattle.edits.specs.Rows.{Rows};
ghost use Rattle.edits.specs.Laws.{SplitKeeps, ChoiceStands, EnterOpens, PurgeKeeps, CloseKeeps, EnterThenPurge, EnterThenClose, DeleteKeeps, RenameKeeps, ProtectKeeps, EmptiedJoins, OutputClear, PlacesInside, PlacesApart};

// Ask 0 over empties of 10 and 8, of 10 and 3, and of 1.
pub fn worked_rows()
    ensures { WorkedRows }
{}

// A split keeps the flat list.
pub fn split_keeps()
    ensures { SplitKeeps }
{}

// What an ask gets is an empty that is long enough.
pub fn choice_stands()
    ensures { ChoiceStands }
{}

// ENTER keeps every file, and leaves one output open.
pub fn enter_opens()
    ensures { EnterOpens }
{}

// PURGE keeps every file.
pub fn purge_keeps()
    ensures { PurgeKeeps }
{}

// CLOSE keeps every other file, and gives its own the blocks put.
pub fn close_keeps()
    ensures { CloseKeeps }
{}

// ENTER and PURGE keep every file.
pub fn enter_then_purge()
    ensures { EnterThenPurge }
{}

// ENTER and CLOSE keep every other file.
pub fn enter_then_close()
    ensures { EnterThenClose }
{}

// DELETE keeps every other file.
pub fn delete_keeps()
    ensures { DeleteKeeps }
{}

// RENAME keeps every other file, and the renamed one but for its name.
pub fn rename_keeps()
    ensures { RenameKeeps }
{}

// PROTECT and UNPROTECT keep every file but for its protection.
pub fn protect_keeps()
    ensures { ProtectKeeps }
{}

// A file lies inside the level.
pub fn places_inside()
    ensures { PlacesInside }
{}

// Two files share no block.
pub fn places_apart()
    ensures { PlacesApart }
{}

// Small directories, by computation.
pub fn rows()
    ensures { Rows }
{}

// The test of a lawful directory decides it.
pub fn lawful_decided()
    ensures { LawfulDecided }
{}

// INITIALIZE makes a lawful directory.
pub fn initial_lawful()
    ensures { InitialLawful }
{}

// The files listed are those found by name.
pub fn files_listed()
    ensures { FilesListed }
{}

// Used and free blocks fill the level.
pub fn used_and_free()
    ensures { UsedAndFree }
{}

// What each ask gets, and when none.
pub fn asks_get()
    ensures { AsksGet }
{}

// An edit of one segment changes no other, nor a header.
pub fn edit_lays()
    ensures { EditLays }
{}

// A split changes one segment, and the new one starts behind what stays.
pub fn split_lays()
    ensures { SplitLays }
{}

// An entry that becomes empty changes no header.
pub fn emptied_lays()
    ensures { EmptiedLays }
{}

// Nor do entries that take the place of one,
pub fn spliced_lays()
    ensures { SplicedLays }
{}

// or of two.
pub fn spliced_two_lays()
    ensures { SplicedTwoLays }
{}

// An entry that becomes empty joins the whole run around it.
pub fn emptied_joins()
    ensures { EmptiedJoins }
{}

// The blocks of an open output are in no file.
pub fn output_clear()
    ensures { OutputClear }
{}
