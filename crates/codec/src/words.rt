// Words of 16 bits, low byte first.
ghost use Rattle.std.specs.Prelude.{◌≡◌, ◌+◌, ◌*◌, ◌/◌, ◌%◌, ◌≤◌, length};
ghost use Rattle.std.specs.List.{flat_map};
ghost use Rattle.codec.specs.Words.{word_at, word_bytes, written};

// The word at a place. For our other crates: the caller has checked that both bytes are there.
pub fn word_at(bytes: &[u8], at: usize) -> u16
    requires { at + 2 ≤ length bytes.now }
    ensures { result ≡ word_at bytes.now at }
{
    u16::from_le_bytes([bytes[at], bytes[at + 1]])
}

// The low byte of a word.
pub fn low(word: u16) -> u8
    ensures { result ≡ word % 256 }
{
    word.to_le_bytes()[0]
}

// The high byte of a word.
pub fn high(word: u16) -> u8
    ensures { result ≡ word / 256 }
{
    word.to_le_bytes()[1]
}

// Writes some bytes over those at a place. For our other crates: the caller has checked that there is room for them.
#[tactic(auto, using(crate::proofs::Written::put_is))]
pub fn put(out: &mut [u8], at: usize, bytes: &[u8])
    requires { at + length bytes.now ≤ length out.old }
    ensures { out.new ≡ written out.old at bytes.now }
{
    out[at..at + bytes.len()].copy_from_slice(bytes);
}

// Writes some words over the bytes at a place. For our other crates: the caller has checked that there is room for them.
pub fn put_words(out: &mut [u8], at: usize, words: &[u16])
    requires { at + 2 * length words.now ≤ length out.old }
    ensures { out.new ≡ written out.old at (flat_map word_bytes words.now) }
{
    for (i, word) in words.iter().enumerate() {
        put(out, at + 2 * i, &word.to_le_bytes());
    }
}
