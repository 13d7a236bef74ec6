// INITIALIZE: its range, the blocks that may refuse it, and every byte that it leaves.
use crate::counting::Counting;
use crate::memory::{patterned, put, put_words, zero};
use device::fault::DeviceFault;
use device::image::Image;
use std::process::Abort;
use std::test::Fail;
use volume::fault::FileFault;
use volume::initial::initialize;

// The sum of the 255 words that the home block begins with, modulo 65,536.
fn home_sum(memory: &[u8]) -> u16 {
    memory
        .chunks(2)
        .skip(256)
        .take(255)
        .fold(0u16, |sum, pair| match pair {
            [low, high] => sum.wrapping_add(u16::from_le_bytes([*low, *high])),
            _ => sum,
        })
}

// Does to the memory of a level of so many blocks what INITIALIZE does.
pub fn lay_out(memory: &mut [u8], segments: u8, blocks: u16) {
    // the home block, of which the first 130 bytes stay
    zero(memory, 512 + 130, 382);
    put_words(memory, 512 + 466, &[1, 6, 36_435]);
    put(memory, 512 + 472, b"RT11A                   DECRT11A    ");
    let sum = home_sum(memory);
    put_words(memory, 512 + 510, &[sum]);
    // the directory, with one empty in segment 1
    let segments = u16::from(segments);
    zero(memory, 3072, 1024 * usize::from(segments));
    let first = segments.wrapping_mul(2).wrapping_add(6);
    put_words(memory, 3072, &[segments, 0, 1, 0, first]);
    put_words(
        memory,
        3082,
        &[512, 0, 0, 0, blocks.wrapping_sub(first), 0, 0, 2048],
    );
}

// INITIALIZE over an image of so many blocks, of which a level has V: where it is refused no byte changes.
fn try_initialize(
    rt: &(impl Abort + AllocGlobal),
    image: usize,
    bad: &[u32],
    segments: u8,
    level: u16,
    answer: Result<(), FileFault>,
) -> Result<(), Fail> {
    let size = image.saturating_mul(512).saturating_add(7);
    let mut memory = patterned(rt.alloc(), size)?;
    let mut expected = patterned(rt.alloc(), size)?;
    if answer.is_ok() {
        lay_out(expected.as_mut_slice(), segments, level);
    }
    let mut image = Image::over(memory.as_mut_slice(), bad);
    assert_eq!(rt;
        initialize(&mut image, segments),
        answer,
        "{}; {}",
        segments,
        level
    );
    assert!(rt;
        image.bytes() == expected.as_slice(),
        "{}; {}",
        segments,
        level
    );
    Ok(())
}

#[test]
fn segments_and_blocks_in_range(rt: HostRuntime) -> Result<(), Fail> {
    for segments in [0, 1, 31, 32, 46, 255] {
        for blocks in [0, 6, 7, 8, 9, 68, 69, 100] {
            let answer = if segments == 1 && blocks >= 9 || segments == 31 && blocks >= 69 {
                Ok(())
            } else {
                Err(FileFault::OutOfRange)
            };
            let image = usize::from(blocks);
            try_initialize(&rt, image, &[], segments, blocks, answer)?;
        }
    }
    assert_eq!(rt; FileFault::OutOfRange.number(), 12);
    assert_eq!(rt; FileFault::OutOfRange.detail(), 0);
    Ok(())
}

#[test]
fn bad_blocks(rt: HostRuntime) -> Result<(), Fail> {
    // With 2 segments, which are blocks 6 to 9: bad blocks, and the one that is told.
    let refused = [
        ([1, 1], 1),
        ([6, 6], 6),
        ([7, 7], 7),
        ([8, 8], 8),
        ([9, 9], 9),
        ([9, 7], 7),
        ([8, 9], 8),
        ([6, 1], 1),
        ([9, 1], 1),
        ([0, 8], 8),
    ];
    for (bad, told) in refused {
        let fault = FileFault::OfDevice(DeviceFault::BadBlock(told));
        try_initialize(&rt, 100, &bad, 2, 100, Err(fault))?;
        assert_eq!(rt; fault.number(), 2);
        assert_eq!(rt; fault.detail(), told);
    }
    for bad in [[0, 2], [3, 4], [5, 10], [11, 99], [100, u32::MAX]] {
        try_initialize(&rt, 100, &bad, 2, 100, Ok(()))?;
    }
    Ok(())
}

#[test]
fn a_level_has_at_most_65535_blocks(rt: HostRuntime) -> Result<(), Fail> {
    try_initialize(&rt, 65_535, &[], 1, 65_535, Ok(()))?;
    try_initialize(&rt, 65_536, &[], 1, 65_535, Ok(()))
}

// INITIALIZE on 100 blocks reads and writes so many, and is refused where it writes none.
fn try_counted(
    rt: &impl Abort,
    memory: &mut [u8],
    bad: u32,
    segments: u8,
    reads: u32,
    writes: u32,
) {
    let list = [bad];
    let mut counting = Counting::over(Image::over(memory, &list));
    assert_eq!(rt;
        initialize(&mut counting, segments).is_ok(),
        writes > 0,
        "{}; {}",
        segments,
        bad
    );
    assert_eq!(rt; counting.reads(), reads, "{}; {}", segments, bad);
    assert_eq!(rt; counting.writes(), writes, "{}; {}", segments, bad);
}

#[test]
fn reads_and_writes_counted(rt: HostRuntime) -> Result<(), Fail> {
    // Segments, a bad block, and the reads and writes: refused by its range, by the first block that it reads, by a later one, and
    // accepted.
    let cases = [
        (0, 99, 0, 0),
        (32, 99, 0, 0),
        (2, 1, 1, 0),
        (2, 6, 2, 0),
        (2, 9, 5, 0),
        (1, 99, 3, 3),
        (2, 99, 5, 5),
        (31, 99, 63, 63),
    ];
    for (segments, bad, reads, writes) in cases {
        let mut memory = patterned(rt.alloc(), 51_200)?;
        try_counted(&rt, memory.as_mut_slice(), bad, segments, reads, writes);
    }
    Ok(())
}
