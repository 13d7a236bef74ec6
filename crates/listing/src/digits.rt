// Numbers in digits.
ghost use Rattle.std.specs.Prelude.{◌≡◌, ◌+◌, ◌<◌, ◌≤◌, length};
ghost use Rattle.codec.specs.Words.{written};
ghost use Rattle.listing.specs.Listings.{right_in, plain};
ghost use Rattle.listing.specs.Columns.{column_at};

use codec::digits::digit;
use codec::words::put;

// The digit of a number that stands for so many, but a blank in front of the first digit.
fn column(n: u64, unit: u64) -> u8
    requires { 0 < unit }
    ensures { result ≡ column_at n unit }
{
    if n < unit { b' ' } else { digit(n, unit) }
}

// A number right-aligned in five columns. Written out: in a loop the last column, a digit even of 0, would stand apart.
pub(crate) fn right_in_five(n: u16) -> [u8; 5]
    ensures { result ≡ right_in 5 (plain n) }
{
    let n = u64::from(n);
    [
        column(n, 10000),
        column(n, 1000),
        column(n, 100),
        column(n, 10),
        digit(n, 1),
    ]
}

// Writes a number without leading zeros at a place, and tells the place behind it. The caller has seen that there is room.
// No `write!`, which may fail in a buffer for all that its trait says.
#[tactic(auto, using(crate::proofs::Placing::one_long, crate::proofs::Placing::more_long))]
pub(crate) fn put_plain(out: &mut [u8], at: usize, n: u32) -> usize
    requires { at + length (plain n) ≤ length out.old }
    ensures after { out.new ≡ written out.old at (plain n) }
    ensures behind { result ≡ at + length (plain n) }
{
    let last = if n < 10 {
        at
    } else {
        put_plain(out, at, n / 10)
    };
    put(out, last, &[digit(u64::from(n), 1)]);
    last + 1
}
