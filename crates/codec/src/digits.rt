// Digits of numbers.
ghost use Rattle.std.specs.Prelude.{◌≡◌, ◌<◌};
ghost use Rattle.codec.specs.Digits.{digit_at, digits_of};

// The digit of a number that stands for so many. For our other crates: so many is never 0.
pub fn digit(n: u64, unit: u64) -> u8
    requires { 0 < unit }
    ensures { result ≡ digit_at n unit }
{
    b'0' + (n / unit % 10) as u8
}

// The last N digits of a number, with zeros in front. From the back by place: of `iter_mut().rev()` a proof knows nothing.
#[tactic(auto, using(crate::proofs::Tens::digits_none))]
pub fn digits<const N: usize>(n: u64) -> [u8; N]
    ensures { result ≡ digits_of N n }
{
    let mut digits = [b'0'; N];
    let mut left = n;
    for place in (0..N).rev() {
        digits[place] = digit(left, 1);
        left /= 10;
    }
    digits
}
