// Levels: mounts at the edges of the level around, and the depth of 7.
use crate::devices::{forty_blocks, refuses, refuses_past};
use crate::memory::{patterned, replaced, untouched};
use device::Device;
use device::fault::DeviceFault;
use device::image::Image;
use device::scratch::Scratch;
use layers::levels::Levels;
use layers::table::LevelFault;
use std::process::Abort;
use std::test::Fail;

// The number that a mount or a dismount answers, 0 where it is accepted.
fn number(answer: Result<(), LevelFault>) -> u8 {
    answer.err().map_or(0, |fault| fault.number())
}

// So many containers are mounted, and the deepest level has so many blocks.
fn shows<D: Device>(rt: &impl Abort, levels: &mut Levels<D>, depth: usize, blocks: u32) {
    assert_eq!(rt; levels.standing().number(), 0, "{}; {}", depth, blocks);
    assert_eq!(rt; levels.depth(), depth, "{}; {}", depth, blocks);
    refuses_past(rt, levels, blocks);
}

#[test]
fn starts_and_lengths(rt: HostRuntime) -> Result<(), Fail> {
    // Over 40 blocks: the start and the length, the number answered, and the depth and the blocks then shown.
    let cases = [
        (3, 30, 0, 1, 30),
        (0, 40, 0, 1, 40),
        (1, 39, 0, 1, 39),
        (40, 0, 0, 1, 0),
        (0, 41, 12, 0, 40),
        (1, 40, 12, 0, 40),
        (41, 0, 12, 0, 40),
        (1, u32::MAX, 12, 0, 40),
        (u32::MAX, 1, 12, 0, 40),
        (u32::MAX, u32::MAX, 12, 0, 40),
    ];
    for (start, length, answer, depth, blocks) in cases {
        let mut levels = Levels::over(Scratch::new());
        assert_eq!(rt;
            number(levels.mount(start, length)),
            answer,
            "{}; {}",
            start,
            length
        );
        shows(&rt, &mut levels, depth, blocks);
    }
    Ok(())
}

#[test]
fn seven_mounts(rt: HostRuntime) -> Result<(), Fail> {
    let mut levels = Levels::over(Scratch::new());
    assert_eq!(rt; number(levels.dismount()), 13);
    shows(&rt, &mut levels, 0, 40);
    // each without the first block of the one around
    for (depth, blocks) in [
        (1, 39),
        (2, 38),
        (3, 37),
        (4, 36),
        (5, 35),
        (6, 34),
        (7, 33),
    ] {
        assert_eq!(rt; number(levels.mount(1, blocks)), 0);
        shows(&rt, &mut levels, depth, blocks);
    }
    assert_eq!(rt; number(levels.mount(0, 1)), 13);
    shows(&rt, &mut levels, 7, 33);
    // block 0 of the deepest is block 7 of the device
    assert_eq!(rt; levels.write(0, &[0x5A; 512]), Ok(()));
    for (depth, blocks) in [
        (6, 34),
        (5, 35),
        (4, 36),
        (3, 37),
        (2, 38),
        (1, 39),
        (0, 40),
    ] {
        assert_eq!(rt; number(levels.dismount()), 0);
        shows(&rt, &mut levels, depth, blocks);
    }
    assert_eq!(rt; number(levels.dismount()), 13);
    forty_blocks(&rt, &levels, Some(7));
    Ok(())
}

// Three levels, of which block b of the deepest is block 5 + 4 + 3 + b of the image, whose block 15 is bad.
fn try_three_levels(rt: &impl Abort, memory: &mut [u8]) -> Result<(), Fail> {
    let mut levels = Levels::over(Image::over(memory, &[15]));
    for (start, length) in [(5, 30), (4, 20), (3, 10)] {
        assert_eq!(rt; number(levels.mount(start, length)), 0);
    }
    shows(rt, &mut levels, 3, 10);
    refuses(rt, &mut levels, 3, DeviceFault::BadBlock(3), 2);
    assert!(rt; untouched(levels.below().bytes()));
    assert_eq!(rt; levels.write(2, &[0x5A; 512]), Ok(()));
    assert!(rt; replaced(levels.below().bytes(), 14 * 512, &[0x5A; 512]));
    Ok(())
}

#[test]
fn starts_add_up(rt: HostRuntime) -> Result<(), Fail> {
    let mut memory = patterned(rt.alloc(), 20_480)?;
    try_three_levels(&rt, memory.as_mut_slice())
}
