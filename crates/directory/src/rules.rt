// The rules of a sound level.
ghost use Rattle.std.specs.Prelude.{◌≡◌, ℕ, ◌+◌, ◌*◌, ◌<◌, ◌≤◌, Bool, true, length};
ghost use Rattle.std.specs.List.{AllByRecursion};
ghost use Rattle.codec.specs.Words.{word_at};
ghost use Rattle.volume.specs.Rules.{told};
ghost use Rattle.segment.specs.Chains.{segment_at};
ghost use Rattle.segment.specs.Directories.{entries_at};
ghost use Rattle.directory.specs.Walks.{spot, blocks_of, Readable, All-prop, Readable-prop, InDirectory, InDirectory-prop};
ghost use Rattle.directory.specs.Rules.{every, same_extra, extra_sound, lawful_at, same_bytes, two_stand, meets, pending_stands, open_stands, all_placed, contiguous_from, broken_late, broken_along, broken_rule, in_use};

use crate::pending::Pending;
use crate::placed::Spot;
use crate::walk::Entries;
use codec::words::word_at;
use segment::chain::{chain_of, segment_at};
use segment::walk::{count_entries, entry_start};
use volume::rule::Rule;

// The segments of a chain, all in the directory, the extra bytes to an entry, and the block at which the first entry starts.
#[derive(Clone, Copy)]
struct Segments<'a> {
    dir: &'a [u8],
    order: &'a [usize],
    extra: u16,
    first: u32,
    ghost inside: { AllByRecursion (InDirectory dir.now) order.now } by { All-prop (InDirectory dir.now) (InDirectory-prop dir.now) order.now },
    ghost few: { length order.now ≤ 31 },
    ghost low: { first ≤ 65535 },
}

// The same, where the entries of each segment are lawful.
#[derive(Clone, Copy)]
struct Lawful<'a> {
    segments: Segments<'a>,
    ghost readable: { AllByRecursion (Readable segments.extra segments.dir.now) segments.order.now } by { All-prop (Readable segments.extra segments.dir.now) (Readable-prop segments.extra segments.dir.now) segments.order.now },
    ghost short: { segments.extra ≤ 64 },
}

// Whether bytes from a place on are the first of others.
#[tactic(auto, using(crate::proofs::Tests::same_found))]
fn same_bytes(bytes: &[u8], at: usize, n: usize, others: &[u8]) -> bool
    requires { (at + n ≤ length bytes.now) × (n ≤ length others.now) }
    ensures { result ≡ same_bytes bytes.now at n others.now }
{
    bytes[at..at + n] == others[..n]
}

// Whether two entries of a segment are those of an open output.
fn entries_stand(segment: &[u8; 1024], extra: u16, index: usize, entries: &[u8; 156]) -> bool
    requires { extra ≤ 64 }
    ensures { result ≡ two_stand extra segment.now index entries.now }
{
    let Some(count) = count_entries(segment, extra) else {
        return false;
    };
    if count < 2 || index > count - 2 {
        return false;
    }
    same_bytes(
        segment,
        entry_start(index, extra),
        2 * (14 + extra as usize),
        entries,
    )
}

// The spot at which a chain begins.
pub fn first_spot(start: u32) -> Spot
    ensures { result ≡ spot 0 0 start }
{
    Spot {
        place: 0,
        index: 0,
        start,
    }
}

impl<'a> Segments<'a> {
    // Whether a segment has so many extra bytes to an entry.
    fn has_extra(self, k: usize) -> bool
        requires { InDirectory self.dir.now k }
        ensures { result ≡ same_extra self.entry.extra self.entry.dir.now k }
    {
        word_at(segment_at(self.dir, k), 6) == self.extra
    }

    #[tactic(auto, using(crate::proofs::Tests::some_mapped))]
    fn is_lawful(self, k: usize) -> bool
        requires { InDirectory self.dir.now k }
        ensures { result ≡ lawful_at self.entry.extra self.entry.dir.now k }
    {
        count_entries(segment_at(self.dir, k), self.extra).is_some()
    }

    fn same_extra(self) -> bool
        ensures { result ≡ every (same_extra self.entry.extra self.entry.dir.now) self.entry.order.now }
    {
        self.order.iter().all(|k| self.has_extra(*k))
    }

    // Rule 5.
    fn extra_sound(self) -> bool
        ensures { result ≡ extra_sound self.entry.extra self.entry.dir.now self.entry.order.now }
    {
        self.extra % 2 == 0 && self.extra <= 64 && self.same_extra()
    }

    // Rule 6, segment by segment.
    fn all_lawful(self) -> bool
        ensures { result ≡ every (lawful_at self.entry.extra self.entry.dir.now) self.entry.order.now }
    {
        self.order.iter().all(|k| self.is_lawful(*k))
    }

    // Rules 5 to 9, in their order.
    #[tactic(auto, unfolding(crate::specs::Rules::broken_along))]
    fn check(self, blocks: u32, output: Option<Pending>) -> Result<(), Rule>
        ensures { told result ≡ broken_along self.entry.extra self.entry.dir.now blocks self.entry.first output self.entry.order.now }
    {
        if !self.extra_sound() {
            return Err(Rule::ExtraBytes);
        }
        if !self.all_lawful() {
            return Err(Rule::Entries);
        }
        Lawful { segments: self }.check(blocks, output)
    }
}

impl<'a> Lawful<'a> {
    ghost use Rattle.directory.specs.Entries.{entries_left};

    #[tactic(auto, using(crate::proofs::Counting::on_whole))]
    fn entries(self) -> Entries<'a>
        ensures { let s = self.entry.segments in entries_left result ≡ all_placed s.extra s.dir.now s.order.now s.first }
    {
        Entries::new(
            self.segments.dir,
            self.segments.order,
            self.segments.extra,
            first_spot(self.segments.first),
        )
    }

    // The blocks of the entries of a segment together.
    #[tactic(auto, using(crate::proofs::Counting::on_whole, crate::proofs::Counting::blocks_one, crate::proofs::Counting::left_few))]
    fn blocks_in(self, k: usize) -> u32
        requires { Readable self.segments.extra self.segments.dir.now k }
        ensures sum { result ≡ blocks_of (entries_at self.entry.segments.extra self.entry.segments.dir.now k) }
        ensures bound { result ≤ 4718520 }
    {
        let Segments { dir, extra, .. } = self.segments;
        Entries::new(dir, &[k], extra, first_spot(0)).sum_blocks()
    }

    // Rule 6 of an open output.
    fn pending_stands(self, output: Pending) -> bool
        ensures { let s = self.entry.segments in result ≡ pending_stands s.extra s.dir.now s.order.now output }
    {
        self.segments.order.contains(&output.segment)
            && entries_stand(
                segment_at(self.segments.dir, output.segment),
                self.segments.extra,
                output.index,
                &output.entries,
            )
    }

    // Rule 6 of the tentative entries: none but that of an open output.
    fn open_stands(self, output: Option<Pending>) -> bool
        ensures { let s = self.entry.segments in result ≡ open_stands s.extra s.dir.now s.order.now output (all_placed s.extra s.dir.now s.order.now s.first) }
    {
        let count = self.entries().count_tentative();
        match output {
            None => count == 0,
            Some(p) => count == 1 && self.pending_stands(p),
        }
    }

    // Rule 7.
    #[tactic(auto, using(crate::proofs::Contiguity::starts_on, crate::proofs::Contiguity::starts_off, crate::proofs::Contiguity::starts_end))]
    fn contiguous(self, blocks: u32) -> bool
        ensures { let s = self.entry.segments in result ≡ contiguous_from s.extra s.dir.now blocks s.first s.order.now }
    {
        let mut at = self.segments.first;
        for k in self.segments.order {
            if word_at(segment_at(self.segments.dir, *k), 8) as u32 != at {
                return false;
            }
            at += self.blocks_in(*k);
        }
        at == blocks
    }

    // Rules 6 (of the tentative entries) to 9, in their order.
    #[tactic(auto, unfolding(crate::specs::Rules::broken_late))]
    fn check(self, blocks: u32, output: Option<Pending>) -> Result<(), Rule>
        ensures { let s = self.entry.segments in told result ≡ broken_late s.extra s.dir.now blocks s.first output s.order.now }
    {
        if !self.open_stands(output) {
            return Err(Rule::Entries);
        }
        if !self.contiguous(blocks) {
            return Err(Rule::Contiguous);
        }
        if !self.entries().all_well_named() {
            return Err(Rule::Names);
        }
        if !self.entries().all_apart() {
            return Err(Rule::NameTwice);
        }
        Ok(())
    }
}

// Rule 3.
fn in_use(highest: u16, total: u16) -> bool
    ensures { result ≡ in_use highest total }
{
    (1..=total).contains(&highest)
}

// Rules 3 to 9, in their order. For our other crates: the caller has loaded the directory, and so checked rules 1 and 2.
#[tactic(auto, using(crate::proofs::Breaking::rule_three, crate::proofs::Breaking::rule_four, crate::proofs::Breaking::rules_rest))]
pub fn check_rules(dir: &[u8], blocks: u16, output: Option<Pending>) -> Result<(), Rule>
    requires { (1024 ≤ length dir.now) × ((word_at dir.now 0 ≤ 31) × (1024 * word_at dir.now 0 ≤ length dir.now)) }
    ensures { told result ≡ broken_rule dir.now blocks output }
{
    let total = word_at(dir, 0);
    let highest = word_at(dir, 4);
    if !in_use(highest, total) {
        return Err(Rule::SegmentsInUse);
    }
    let Some(chain) = chain_of(dir, highest as usize) else {
        return Err(Rule::Chain);
    };
    let segments = Segments {
        dir,
        order: chain.as_slice(),
        extra: word_at(dir, 6),
        first: 6 + 2 * total as u32,
    };
    segments.check(blocks as u32, output)
}
