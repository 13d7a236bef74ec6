// The entries of a directory, walked in place in chain order.
ghost use Rattle.std.specs.Prelude.{◌≡◌, ◌+◌, ◌*◌, ◌<◌, ◌≤◌, length, Some};
ghost use Rattle.volume.specs.declared.entry.Entry.{Entry};
ghost use Rattle.segment.specs.Entries.{entry_of};
ghost use Rattle.directory.specs.Walks.{placed, spot, left, chained, OnWay, OnWay-prop, Steps, ChainSteps};

use crate::placed::{Placed, Spot};
use codec::words::word_at;
use segment::chain::segment_at;
use segment::entry::EntryWords;
use segment::walk::entry_start;
use volume::segment::END;

// The entries of a chain from a spot on, in chain order.
#[derive(Clone, Copy)]
pub struct Entries<'a> {
    dir: &'a [u8],
    order: &'a [usize],
    extra: u16,
    at: Spot,
    pub ghost way: { OnWay extra dir.now order.now at } by { OnWay-prop extra dir.now order.now at },
}

impl<'a> Entries<'a> {
    ghost use Rattle.directory.specs.Entries.{entries_left, placed_left, WalksBy, StepsOn, ChainStepsOn};

    // For our other crates: the caller has found the segments of the chain lawful.
    pub fn new(dir: &'a [u8], order: &'a [usize], extra: u16, at: Spot) -> Entries<'a>
        requires { OnWay extra dir.now order.now at }
        ensures entries { entries_left result ≡ left extra dir.now order.now at }
        ensures chain { placed_left result ≡ chained extra dir.now order.now at }
        ensures given { WalksBy result dir.now order.now extra at }
    {
        Entries {
            dir,
            order,
            extra,
            at,
        }
    }

    // The next entry, and the spot behind it, or none at the end of the chain.
    pub fn next_entry(self) -> Option<(Placed, Spot)>
        ensures step { StepsOn self.entry result }
        ensures chain { ChainStepsOn self.entry result }
    {
        let mut index = self.at.index;
        // By places: over `order[place..]` the place that is told would have to be summed up again.
        for place in self.at.place..self.order.len() {
            let number = self.order[place];
            let segment = segment_at(self.dir, number);
            let at = entry_start(index, self.extra);
            if word_at(segment, at) != END {
                let words = EntryWords::new(segment, at);
                let status = words.status()?;
                let length = words.length();
                let entry = Placed {
                    status,
                    name: words.name(),
                    length,
                    date: words.date(),
                    segment: number,
                    index,
                    start: self.at.start,
                };
                let next = Spot {
                    place,
                    index: index + 1,
                    start: self.at.start + length as u32,
                };
                return Some((entry, next));
            }
            index = 0;
        }
        None
    }
}

impl<'a> Iterator for Entries<'a> {
    ghost use Rattle.std.specs.Iterator.{YieldsFirst, item_count};
    ghost use Rattle.directory.specs.Entries.{entries_left};

    type Item = Placed;

    ghost next_gives = { YieldsFirst entries_left };

    ghost remaining = { item_count entries_left };

    fn next(&mut self) -> Option<Placed> {
        let (entry, next) = self.next_entry()?;
        self.at = next;
        Some(entry)
    }
}

// The same entries, each with its segment's place in the chain. An iterator of its own, since contracts speak of another list.
#[derive(Clone, Copy)]
pub struct ChainEntries<'a> {
    entries: Entries<'a>,
}

impl<'a> Iterator for ChainEntries<'a> {
    ghost use Rattle.std.specs.Iterator.{YieldsFirst, item_count};
    ghost use Rattle.directory.specs.Entries.{chain_left};

    type Item = (usize, Placed);

    ghost next_gives = { YieldsFirst chain_left };

    ghost remaining = { item_count chain_left };

    fn next(&mut self) -> Option<(usize, Placed)> {
        let (entry, next) = self.entries.next_entry()?;
        self.entries.at = next;
        Some((next.place, entry))
    }
}

impl<'a> ChainEntries<'a> {
    ghost use Rattle.directory.specs.Entries.{chain_left, placed_left};

    pub fn new(entries: Entries<'a>) -> ChainEntries<'a>
        ensures { chain_left result ≡ placed_left entries.entry }
    {
        ChainEntries { entries }
    }
}
