// The file of a name, and the tentative entry.
ghost use Rattle.std.specs.Prelude.{◌≡◌, ◌≤◌, IfSome};
ghost use Rattle.places.specs.Searches.{entry_told, file_told};
ghost use Rattle.places.specs.Places.{file_place, tentative_place};

use crate::place::{EntryPlace, FilePlace};
use codec::name::Name;
use directory::find::is_named;
use directory::placed::Placed;
use directory::sound::Sound;
use directory::walk::ChainEntries;

// An entry with its segment's place in the chain. Two parameters and no `From`, which would take a pair.
pub(crate) fn entry_told(place: usize, entry: Placed) -> EntryPlace
    ensures { result ≡ entry_told (place, entry) }
{
    EntryPlace {
        place,
        segment: entry.segment,
        index: entry.index,
        start: entry.start,
        length: entry.length,
    }
}

// The same of a file, with its date and whether it is protected.
fn file_told(place: usize, entry: Placed) -> FilePlace
    ensures { result ≡ file_told (place, entry) }
{
    FilePlace {
        entry: entry_told(place, entry),
        date: entry.date,
        protected: entry.status.is_protected(),
    }
}

// Where the file of a name stands.
pub fn find_place(dir: Sound, name: Name) -> Option<FilePlace>
    ensures file { result ≡ file_place dir.entry.bytes.now name }
    ensures start { IfSome result (λ f. f.entry.start ≤ 200000000) }
{
    let chain = dir.chain();
    let (place, entry) = ChainEntries::new(dir.entries(&chain)).find(|(_, entry)| is_named(
        name, *entry,
    ))?;
    Some(file_told(place, entry))
}

// Where the first tentative entry stands.
pub fn find_tentative(dir: Sound) -> Option<EntryPlace>
    ensures entry { result ≡ tentative_place dir.entry.bytes.now }
    ensures start { IfSome result (λ f. f.start ≤ 200000000) }
{
    let chain = dir.chain();
    let (place, entry) = ChainEntries::new(dir.entries(&chain)).find(|(_, entry)| entry
        .status
        .is_tentative())?;
    Some(entry_told(place, entry))
}
