// What is asked of the entries in chain order.
ghost use Rattle.std.specs.Prelude.{◌≡◌, ◌+◌, ◌*◌, ◌≤◌, length, IfSome};
ghost use Rattle.directory.specs.Finds.{is_file, is_tentative, same_name, is_named, first_named, tentatives, blocks_in, well_named, all_well_named, alone, all_apart};

use crate::placed::Placed;
use crate::walk::Entries;
use codec::name::Name;

// Whether an entry is a file's.
pub fn is_file(entry: Placed) -> bool
    ensures { result ≡ is_file entry }
{
    entry.status.is_file()
}

// Whether an entry is tentative.
pub fn is_tentative(entry: Placed) -> bool
    ensures { result ≡ is_tentative entry }
{
    entry.status.is_tentative()
}

// Whether two names are one. Word by word, since rule 9 asks it of each two files, and by `==` that takes half as long again.
fn same_name(a: Name, b: Name) -> bool
    ensures { result ≡ same_name a b }
{
    a.first == b.first && a.second == b.second && a.kind == b.kind
}

// Whether an entry is the file of a name.
pub fn is_named(name: Name, entry: Placed) -> bool
    ensures { result ≡ is_named name entry }
{
    is_file(entry) && same_name(name, entry.name)
}

fn well_named(entry: Placed) -> bool
    ensures { result ≡ well_named entry }
{
    !is_file(entry)
        || entry.name.first < 64_000 && entry.name.second < 64_000 && entry.name.kind < 64_000
}

impl<'a> Entries<'a> {
    ghost use Rattle.directory.specs.Entries.{entries_left};

    // The first file of a name. How far its start goes stays a clause: a ghost field of `Placed` would ask for a proof wherever
    // specs/ makes one. A loop and no `find`, by which each step of rule 9 takes a quarter more.
    #[tactic(auto, using(crate::proofs::Finding::named, crate::proofs::Finding::not_named, crate::proofs::Finding::named_none))]
    pub fn find_named(self, name: Name) -> Option<Placed>
        ensures file { result ≡ first_named name (entries_left self.entry) }
        ensures start { IfSome result (λ p. p.start ≤ 200000000) }
    {
        for entry in self {
            if is_named(name, entry) {
                return Some(entry);
            }
        }
        None
    }

    // How many entries are tentative.
    pub(crate) fn count_tentative(self) -> usize
        ensures { result ≡ tentatives (entries_left self.entry) }
    {
        self.filter(|entry| is_tentative(*entry)).count()
    }

    // The blocks of the entries together. A loop, since a proof of `sum` sees no bound of each length.
    #[tactic(auto, using(crate::proofs::Finding::blocks_on, crate::proofs::Finding::blocks_none))]
    pub(crate) fn sum_blocks(self) -> u32
        ensures sum { result ≡ blocks_in (entries_left self.entry) }
        ensures bound { result ≤ 65535 * length (entries_left self.entry) }
    {
        let mut sum = 0;
        for entry in self {
            sum += entry.length as u32;
        }
        sum
    }

    // Whether the name words of all files are below 64,000.
    pub(crate) fn all_well_named(mut self) -> bool
        ensures { result ≡ all_well_named (entries_left self.entry) }
    {
        self.all(|entry| well_named(entry))
    }

    // Whether an entry, if it is a file's, has a name that no file here has.
    fn leaves_alone(self, entry: Placed) -> bool
        ensures { result ≡ alone entry (entries_left self.entry) }
    {
        !is_file(entry) || self.find_named(entry.name).is_none()
    }

    // Whether no two files have one name. No `for`, since each is compared with those that are left behind it.
    #[tactic(auto, using(crate::proofs::Finding::apart_on, crate::proofs::Finding::apart_off, crate::proofs::Finding::apart_none))]
    pub(crate) fn all_apart(mut self) -> bool
        ensures { result ≡ all_apart (entries_left self.entry) }
    {
        while let Some(entry) = self.next() {
            if !self.leaves_alone(entry) {
                return false;
            }
        }
        true
    }
}
