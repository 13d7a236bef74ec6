// The home block.
ghost use Rattle.std.specs.Prelude.{◌≡◌, ◌%◌};
ghost use Rattle.volume.specs.Home.{words_sum, home};

use codec::words::{put, put_words};

// The system version, V05 in RAD50.
const VERSION: u16 = 36_435;

// The sum of the 255 words before the last, modulo 65,536.
fn checksum(block: &[u8; 512]) -> u16
    ensures { result ≡ words_sum block.now 255 % 65536 }
{
    // A rule of the project: a loop over the bytes, whose index tells the low byte of a word from the high one.
    let mut sum: u32 = 0;
    for i in 0..510 {
        let byte = block[i] as u32;
        if i % 2 == 0 {
            sum += byte;
        } else {
            sum += 256 * byte;
        }
    }
    (sum % 65_536) as u16
}

// The home block of a new volume. Of the old one it keeps the table of bad blocks.
pub(crate) fn home_block(old: &[u8; 512]) -> [u8; 512]
    ensures { result ≡ home old.now }
{
    let mut block = [0; 512];
    put(&mut block, 0, &old[..130]);
    // pack cluster size, first directory block, system version
    put_words(&mut block, 466, &[1, 6, VERSION]);
    // volume, owner and system identification
    put(&mut block, 472, b"RT11A       ");
    put(&mut block, 484, b"            ");
    put(&mut block, 496, b"DECRT11A    ");
    let sum = checksum(&block);
    put_words(&mut block, 510, &[sum]);
    block
}
