// What the files and the empties come to.
ghost use Rattle.std.specs.Prelude.{◌≡◌, ◌+◌, ◌*◌, ◌^◌, ◌<◌, length};
ghost use Rattle.directory.specs.Entries.{entries_left};
ghost use Rattle.directory.specs.Finds.{blocks_in};
ghost use Rattle.listing.specs.Listings.{files_in, empties_in, file_lines};
ghost use Rattle.listing.specs.Adding.{with_entry};

use directory::placed::Placed;
use directory::walk::Entries;
use volume::entry::Status;

// The number of files, their blocks together, and the blocks of the empties together.
#[derive(Clone, Copy, Default)]
pub(crate) struct Totals {
    pub(crate) files: u32,
    pub(crate) used: u32,
    pub(crate) free: u32,
}

// The totals with one entry more.
fn with_entry(totals: Totals, entry: Placed) -> Totals
    requires { (totals.files + 65535 < 2 ^ 32) × ((totals.used + 65535 < 2 ^ 32) × (totals.free + 65535 < 2 ^ 32)) }
    ensures same { result ≡ with_entry totals entry }
    ensures word { entry.length < 65536 }
{
    let blocks = entry.length as u32;
    match entry.status {
        Status::Tentative => totals,
        Status::Empty => Totals {
            free: totals.free + blocks,
            ..totals
        },
        Status::Permanent | Status::Protected => Totals {
            files: totals.files + 1,
            used: totals.used + blocks,
            ..totals
        },
    }
}

// The totals of some entries.
pub(crate) fn totals_of(entries: Entries) -> Totals
    ensures files { result.files ≡ length (files_in (entries_left entries.entry)) }
    ensures used { result.used ≡ blocks_in (files_in (entries_left entries.entry)) }
    ensures free { result.free ≡ blocks_in (empties_in (entries_left entries.entry)) }
    ensures lines { 30 * result.files ≡ length (file_lines (entries_left entries.entry)) }
{
    let mut totals = Totals::default();
    for entry in entries {
        totals = with_entry(totals, entry);
    }
    totals
}
