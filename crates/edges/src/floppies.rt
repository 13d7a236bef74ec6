// Floppies: where each sector of each block lies.
ghost use Rattle.std.specs.Prelude.{◌≤◌};

use crate::counting::Counting;
use crate::devices::{refuses, refuses_past};
use crate::memory::{pattern, patterned, put, untouched};
use device::Device;
use device::fault::DeviceFault;
use device::image::Image;
use floppy::Floppy;
use std::array;
use std::process::Abort;
use std::test::Fail;

// Where sector L of a floppy begins below: with t = L div 26 and p = L mod 26 it is on track t + 1.
pub fn sector_at(l: u16) -> usize {
    let t = usize::from(l) / 26;
    let p = usize::from(l) % 26;
    let q = if p >= 13 { 2 * p + 1 } else { 2 * p };
    let track = t + 1;
    let sector = (q + 6 * t) % 26 + 1;
    (26 * track + sector - 1) * 128
}

// The blocks below that hold the sectors of block b.
fn blocks_below(b: u16) -> [usize; 4] {
    let first = b.wrapping_mul(4);
    [0, 1, 2, 3].map(|i| sector_at(first.wrapping_add(i)) / 512)
}

// How many of four are different.
fn distinct(four: [usize; 4]) -> u32
    ensures { result ≤ 4 }
{
    let firsts = four
        .iter()
        .enumerate()
        .filter(|(i, block)| !four[..*i].contains(block));
    firsts.count() as u32
}

// 512 bytes that differ from block to block.
fn bytes_of(b: u16) -> [u8; 512] {
    let first = 1_000_003 + 512 * usize::from(b);
    array::from_fn(|i| pattern(first + i))
}

// Puts the sectors of block b where they lie.
fn put_block(memory: &mut [u8], b: u16, bytes: &[u8; 512]) {
    let first = b.wrapping_mul(4);
    for (l, sector) in (first..).zip(bytes.chunks(128)) {
        put(memory, sector_at(l), sector);
    }
}

// A floppy over this memory has this standing and shows so many blocks.
fn try_standing(rt: &impl Abort, memory: &mut [u8], standing: u8, blocks: u32) {
    let bytes = memory.len();
    let mut floppy = Floppy::over(Image::over(memory, &[]));
    assert_eq!(rt; floppy.standing().number(), standing, "{}", bytes);
    refuses_past(rt, &mut floppy, blocks);
    assert!(rt; untouched(floppy.below().bytes()), "{}", bytes);
}

#[test]
fn standing_over_501_blocks(rt: HostRuntime) -> Result<(), Fail> {
    for (below, standing, blocks) in [(0, 3, 0), (500, 3, 0), (501, 0, 494), (502, 0, 494)] {
        let mut memory = patterned(rt.alloc(), 512 * below + 511)?;
        try_standing(&rt, memory.as_mut_slice(), standing, blocks);
    }
    // track 1 sector 2, track 2 sector 7, track 76 sector 8
    assert_eq!(rt; sector_at(13), 27 * 128);
    assert_eq!(rt; sector_at(26), 58 * 128);
    assert_eq!(rt; sector_at(1975), 1983 * 128);
    Ok(())
}

// Writes all blocks, each of which changes its four sectors and nothing else, and then reads them.
fn try_sectors(rt: &impl Abort, memory: &mut [u8], expected: &mut [u8]) {
    let mut floppy = Floppy::over(Image::over(memory, &[]));
    for b in 0..494u16 {
        let bytes = bytes_of(b);
        put_block(expected, b, &bytes);
        assert_eq!(rt; floppy.write(u32::from(b), &bytes), Ok(()));
        assert!(rt; floppy.below().bytes() == &*expected, "{}", b);
    }
    for b in 0..494u16 {
        let mut buffer = [0; 512];
        assert_eq!(rt; floppy.read(u32::from(b), &mut buffer), Ok(()));
        assert!(rt; buffer == bytes_of(b), "{}", b);
    }
}

#[test]
fn sectors_land(rt: HostRuntime) -> Result<(), Fail> {
    let mut memory = patterned(rt.alloc(), 512 * 502 + 7)?;
    let mut expected = patterned(rt.alloc(), 512 * 502 + 7)?;
    try_sectors(&rt, memory.as_mut_slice(), expected.as_mut_slice());
    // track 0 and what is behind track 76 never change
    for (i, byte) in memory.iter().enumerate() {
        if i < 3328 || i >= 256_256 {
            assert!(rt; *byte == pattern(i), "{}", i);
        }
    }
    Ok(())
}

// One bad block below makes those blocks bad that have a sector in it, and no refused write changes a byte.
fn try_bad(rt: &impl Abort, memory: &mut [u8], bad: u32) {
    let list = [bad];
    let mut floppy = Floppy::over(Image::over(memory, &list));
    for b in 0..494u16 {
        let block = u32::from(b);
        if blocks_below(b).contains(&(bad as usize)) {
            refuses(rt, &mut floppy, block, DeviceFault::BadBlock(block), 2);
        } else {
            let mut buffer = [0; 512];
            assert_eq!(rt; floppy.read(block, &mut buffer), Ok(()), "{}; {}", bad, b);
        }
    }
    assert!(rt; untouched(floppy.below().bytes()), "{}", bad);
}

#[test]
fn a_bad_block_below(rt: HostRuntime) -> Result<(), Fail> {
    let mut memory = patterned(rt.alloc(), 512 * 502)?;
    for bad in 0..502 {
        try_bad(&rt, memory.as_mut_slice(), bad);
    }
    Ok(())
}

// A read asks each block below once. A write asks each to be read twice at most, and to be written once.
fn try_counted<D: Device>(rt: &impl Abort, floppy: &mut Floppy<Counting<D>>, b: u16) {
    let blocks = distinct(blocks_below(b));
    let mut buffer = [0; 512];
    floppy.below().reset();
    assert_eq!(rt; (*floppy).read(u32::from(b), &mut buffer), Ok(()), "{}", b);
    assert_eq!(rt; floppy.below().reads(), blocks, "{}", b);
    assert_eq!(rt; floppy.below().writes(), 0, "{}", b);
    floppy.below().reset();
    assert_eq!(rt; (*floppy).write(u32::from(b), &buffer), Ok(()), "{}", b);
    assert!(rt; floppy.below().reads() <= 2 * blocks, "{}", b);
    assert_eq!(rt; floppy.below().writes(), blocks, "{}", b);
}

#[test]
fn reads_and_writes_counted(rt: HostRuntime) -> Result<(), Fail> {
    let mut memory = patterned(rt.alloc(), 512 * 501)?;
    let mut floppy = Floppy::over(Counting::over(Image::over(memory.as_mut_slice(), &[])));
    for b in 0..494 {
        try_counted(&rt, &mut floppy, b);
    }
    Ok(())
}
