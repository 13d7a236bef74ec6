// The empty that an ask gets.
ghost use Rattle.std.specs.Prelude.{◌≡◌, ◌≤◌, IfSome};
ghost use Rattle.directory.specs.Entries.{chain_left};
ghost use Rattle.places.specs.Places.{empty_place};
ghost use Rattle.places.specs.Chosen.{first_fit, larger, second_of, with_entry, none_yet, Low, best_after, least_of, giving, given_of, whole_of, half_of, half_or_second, half_from, decided};

use crate::find::entry_told;
use crate::place::{EmptyPlace, EntryPlace};
use directory::placed::Placed;
use directory::sound::Sound;
use directory::walk::ChainEntries;
use runfile::field::Ask;

// The empties met so far that an ask may get: the first of enough blocks, the largest, and the largest of the others.
#[derive(Clone, Copy, Default)]
struct Best {
    first: Option<EntryPlace>,
    largest: Option<EntryPlace>,
    second: Option<EntryPlace>,
}

// The first of so many blocks, with one empty more.
fn first_fit(first: Option<EntryPlace>, empty: EntryPlace, least: u16) -> Option<EntryPlace>
    ensures { result ≡ first_fit least first empty }
{
    first.or_else(|| (least <= empty.length).then_some(empty))
}

// The largest, with one empty more: the first of equals.
fn larger(largest: Option<EntryPlace>, empty: EntryPlace) -> EntryPlace
    ensures { result ≡ larger largest empty }
{
    match largest {
        Some(a) if a.length >= empty.length => a,
        _ => empty,
    }
}

// The second largest, with one empty more.
fn second_of(
    largest: Option<EntryPlace>,
    second: Option<EntryPlace>,
    empty: EntryPlace,
) -> Option<EntryPlace>
    ensures { result ≡ second_of largest second empty }
{
    let top = largest?;
    Some(if top.length < empty.length {
        top
    } else {
        larger(second, empty)
    })
}

// The best with one entry more.
fn with_entry(best: Best, least: u16, place: usize, entry: Placed) -> Best
    ensures { result ≡ with_entry least best (place, entry) }
{
    if !entry.status.is_empty() {
        return best;
    }
    let empty = entry_told(place, entry);
    Best {
        first: first_fit(best.first, empty, least),
        largest: Some(larger(best.largest, empty)),
        second: second_of(best.largest, best.second, empty),
    }
}

// The best of some entries.
fn best_of(entries: ChainEntries, least: u16) -> Best
    ensures best { result ≡ best_after least none_yet (chain_left entries.entry) }
    ensures low { Low result }
{
    let mut best = Best::default();
    for (place, entry) in entries {
        best = with_entry(best, least, place, entry);
    }
    best
}

// An empty of which so many blocks are given.
fn giving(blocks: u16, a: EntryPlace) -> EmptyPlace
    ensures { result ≡ giving blocks a }
{
    EmptyPlace {
        entry: a,
        given: blocks,
    }
}

fn given_of(blocks: u16, first: Option<EntryPlace>) -> Option<EmptyPlace>
    ensures { result ≡ given_of blocks first }
{
    first.map(|a| giving(blocks, a))
}

// The whole largest, unless it has no blocks.
fn whole_of(largest: Option<EntryPlace>) -> Option<EmptyPlace>
    ensures { result ≡ whole_of largest }
{
    largest
        .filter(|a| a.length != 0)
        .map(|a| giving(a.length, a))
}

// Half of some blocks, rounded up.
fn half_of(blocks: u16) -> u16
    ensures { result ≡ half_of blocks }
{
    blocks - blocks / 2
}

// Half the largest, or the whole second largest if that is more.
fn half_or_second(a: EntryPlace, second: Option<EntryPlace>) -> EmptyPlace
    ensures { result ≡ half_or_second a second }
{
    let half = half_of(a.length);
    match second {
        Some(b) if half < b.length => giving(b.length, b),
        _ => giving(half, a),
    }
}

fn half_from(largest: Option<EntryPlace>, second: Option<EntryPlace>) -> Option<EmptyPlace>
    ensures { result ≡ half_from largest second }
{
    largest
        .filter(|a| a.length != 0)
        .map(|a| half_or_second(a, second))
}

// How many blocks the first has to have.
fn least_of(ask: Ask) -> u16
    ensures { result ≡ least_of ask }
{
    match ask {
        Ask::Whole | Ask::Half => 0,
        Ask::Exact(blocks) => blocks,
    }
}

// What an ask gets.
fn decided(ask: Ask, best: Best) -> Option<EmptyPlace>
    ensures { result ≡ decided ask best }
{
    match ask {
        Ask::Whole => whole_of(best.largest),
        Ask::Half => half_from(best.largest, best.second),
        Ask::Exact(blocks) => given_of(blocks, best.first),
    }
}

// The empty that an ask gets.
pub fn choose(dir: Sound, ask: Ask) -> Option<EmptyPlace>
    ensures empty { result ≡ empty_place dir.entry.bytes.now ask }
    ensures start { IfSome result (λ f. f.entry.start ≤ 200000000) }
{
    let chain = dir.chain();
    let best = best_of(ChainEntries::new(dir.entries(&chain)), least_of(ask));
    decided(ask, best)
}
