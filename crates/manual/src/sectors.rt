// Sectors of an RX01 floppy, in the order of its handler.
ghost use Rattle.std.specs.Prelude.{◌≡◌, ℕ, ◌+◌, ◌*◌, ◌/◌, ◌<◌, ◌≤◌, T, length, IfSome};
ghost use Rattle.codec.specs.Words.{word_at};

use crate::paper::{Words, heading, line};
use codec::words::word_at;
use device::Device;
use device::fault::DeviceFault;
use device::image::Image;
use floppy::Floppy;
use std::io;

// The bytes of 501 blocks.
const IMAGE: usize = 256_512;

// Fills a sector with a word.
fn fill(sector: &mut [u8], word: u16) {
    for pair in sector.chunks_exact_mut(2) {
        pair.copy_from_slice(&word.to_le_bytes());
    }
}

// A block of the floppy, sector L filled with the word L + 1.
fn marked(b: u32) -> [u8; 512]
    requires { b < 494 }
{
    let mut block = [0; 512];
    let first = (4 * b + 1) as u16;
    for (word, sector) in (first..first + 4).zip(block.chunks_exact_mut(128)) {
        fill(sector, word);
    }
    block
}

// Writes some blocks, those of the sectors that are shown among them. One by one: in a loop each number's bound would need a proof.
fn write_marks<D: Device>(floppy: &mut D) -> Result<(), DeviceFault> {
    (*floppy).write(0, &marked(0))?;
    (*floppy).write(1, &marked(1))?;
    (*floppy).write(2, &marked(2))?;
    (*floppy).write(3, &marked(3))?;
    (*floppy).write(6, &marked(6))?;
    (*floppy).write(493, &marked(493))
}

// Whether a sector is filled with a word.
fn is_filled(sector: &[u8], word: u16) -> bool
    ensures { T result → (k : ℕ) → k < length sector.now / 2 → word_at sector.now (2 * k) ≡ word }
{
    sector.chunks_exact(2).all(|pair| word_at(pair, 0) == word)
}

// Where the first sector that is filled with a word begins.
fn find_filled(image: &[u8], word: u16) -> Option<usize>
    ensures { IfSome result (λ at. at + 128 ≤ length image.now) }
{
    let place = image
        .chunks_exact(128)
        .position(|sector| is_filled(sector, word))?;
    Some(128 * place)
}

// Where sector L lies.
fn show_sector(rt: &HostRuntime, image: &[u8], l: u16) -> io::Result<()>
    requires { l < 1976 }
{
    match find_filled(image, l + 1) {
        Some(at) => {
            let track = at / 3328;
            let sector = at % 3328 / 128 + 1;
            println!(rt;
                "  L = {l:>4}{:28}track {track}, sector {sector}, byte {at}",
                ""
            )
        }
        None => println!(rt; "  L = {l:>4}{:28}nowhere", ""),
    }
}

fn show_sectors(rt: &HostRuntime, image: &[u8]) -> io::Result<()> {
    show_sector(rt, image, 0)?;
    show_sector(rt, image, 1)?;
    show_sector(rt, image, 2)?;
    show_sector(rt, image, 3)?;
    show_sector(rt, image, 13)?;
    show_sector(rt, image, 26)?;
    show_sector(rt, image, 1975)
}

// The first word of each sector of a block, read back.
fn show_block<D: Device>(rt: &HostRuntime, floppy: &D, b: u32) -> io::Result<()> {
    let mut block = [0; 512];
    if let Err(fault) = floppy.read(b, &mut block) {
        let number = fault.number();
        return println!(rt; "  block {b} refused with {number}");
    }
    let firsts = [
        block[0], block[1], block[128], block[129], block[256], block[257], block[384], block[385],
    ];
    println!(rt;
        "  block {b}, a word of each sector{:6}{}",
        "",
        Words(&firsts)
    )
}

// How many sectors are not zero.
fn count_filled(image: &[u8]) -> usize
    ensures { result ≤ length image.now / 128 }
{
    image
        .chunks_exact(128)
        .filter(|sector| !is_filled(sector, 0))
        .count()
}

pub(crate) fn sectors(rt: &HostRuntime) -> io::Result<()> {
    heading(
        rt,
        "RX01 sectors: sector L of a floppy, filled with the word L + 1, in an image of 501 blocks",
    )?;
    let mut memory = vec![in rt.alloc(); 0u8; IMAGE]?;
    let mut floppy = Floppy::over(Image::over(memory.as_mut_slice(), &[]));
    if let Err(fault) = write_marks(&mut floppy) {
        return line(rt, "a write refused with", fault.number());
    }
    let image = floppy.below().bytes();
    show_sectors(rt, image)?;
    show_block(rt, &floppy, 0)?;
    show_block(rt, &floppy, 1)?;
    show_block(rt, &floppy, 2)?;
    line(rt, "sectors of the image not zero", count_filled(image))
}
