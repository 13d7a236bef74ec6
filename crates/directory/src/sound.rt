// A sound directory: its chain, its entries and its files.
ghost use Rattle.std.specs.Prelude.{◌≡◌, ◌+◌, ◌*◌, ◌≤◌, length, IfSome};
ghost use Rattle.codec.specs.Words.{word_at};
ghost use Rattle.segment.specs.Chains.{order_of};
ghost use Rattle.segment.specs.Directories.{chain_of};
ghost use Rattle.directory.specs.Walks.{spot, chained, OnWay};
ghost use Rattle.directory.specs.Sounds.{SoundBytes, placed_of, file_of};

use crate::placed::Placed;
use crate::rules::first_spot;
use crate::walk::Entries;
use codec::name::Name;
use codec::words::word_at;
use segment::chain::{Chain, chain_of};

// The bytes of a sound directory.
#[derive(Clone, Copy)]
pub struct Sound<'a> {
    pub bytes: &'a [u8],
    pub ghost sound: { ∥ SoundBytes bytes.now ∥₁ },
}

impl<'a> Sound<'a> {
    ghost use Rattle.directory.specs.Entries.{entries_left, placed_left};

    // For our other crates: the caller has found the directory sound.
    pub fn new(bytes: &'a [u8]) -> Sound<'a>
        requires { SoundBytes bytes.now }
        ensures { result.bytes.now ≡ bytes.now }
    {
        Sound { bytes }
    }

    // Its segments in chain order.
    #[tactic(auto, using(crate::proofs::Sounding::chain_there, crate::proofs::Sounding::order_found, crate::proofs::Breaking::few_taken))]
    pub fn chain(self) -> Chain
        ensures order { order_of result ≡ chain_of self.entry.bytes.now }
        ensures count { result.count ≤ 31 }
        ensures few { length (order_of result) ≤ 31 }
        ensures way { OnWay (word_at self.entry.bytes.now 6) self.entry.bytes.now (order_of result) (spot 0 0 (6 + 2 * word_at self.entry.bytes.now 0)) }
    {
        chain_of(self.bytes, word_at(self.bytes, 4) as usize).unwrap()
    }

    // The block behind a directory, where its first entry starts.
    pub fn first_block(self) -> u32
        ensures { result ≡ 6 + 2 * word_at self.entry.bytes.now 0 }
    {
        6 + 2 * word_at(self.bytes, 0) as u32
    }

    // Its entries along its chain. For our other crates: the caller hands on what `chain` answered.
    pub fn entries(self, chain: &'a Chain) -> Entries<'a>
        requires { order_of chain.now ≡ chain_of self.bytes.now }
        ensures entries { entries_left result ≡ placed_of self.entry.bytes.now }
        ensures chain { placed_left result ≡ chained (word_at self.entry.bytes.now 6) self.entry.bytes.now (chain_of self.entry.bytes.now) (spot 0 0 (6 + 2 * word_at self.entry.bytes.now 0)) }
    {
        Entries::new(
            self.bytes,
            chain.as_slice(),
            word_at(self.bytes, 6),
            first_spot(self.first_block()),
        )
    }

    // The file of a name.
    #[tactic(auto, unfolding(crate::specs::Sounds::file_of))]
    pub fn find_file(self, name: Name) -> Option<Placed>
        ensures file { result ≡ file_of self.entry.bytes.now name }
        ensures start { IfSome result (λ p. p.start ≤ 200000000) }
    {
        self.entries(&self.chain()).find_named(name)
    }
}
