// The two bottoms: images over memory of every kind of size, and the scratch device.
use crate::memory::{patterned, replaced, untouched};
use device::Device;
use device::fault::DeviceFault;
use device::image::Image;
use device::scratch::Scratch;
use std::process::Abort;
use std::test::Fail;

// A read and a write of block b are refused with this fault, which has this number, and the buffer keeps its bytes.
pub fn refuses<D: Device>(rt: &impl Abort, d: &mut D, b: u32, fault: DeviceFault, number: u8) {
    let mut buffer = [0xA5; 512];
    assert_eq!(rt; (*d).read(b, &mut buffer), Err(fault), "{}", b);
    assert!(rt; buffer == [0xA5; 512], "{}", b);
    assert_eq!(rt; (*d).write(b, &buffer), Err(fault), "{}", b);
    assert_eq!(rt; fault.number(), number);
    assert_eq!(rt; fault.block(), b);
}

pub fn refuses_past<D: Device>(rt: &impl Abort, d: &mut D, size: u32) {
    assert_eq!(rt; (*d).size(), size);
    for b in [size, size.saturating_add(1), u32::MAX] {
        refuses(rt, d, b, DeviceFault::PastEnd(b), 1);
    }
}

// An image of so many blocks, of which a write of the last changes no byte behind it.
fn try_image(rt: &impl Abort, memory: &mut [u8], blocks: u32) {
    let bytes = memory.len();
    let mut image = Image::over(memory, &[]);
    refuses_past(rt, &mut image, blocks);
    assert!(rt; untouched(image.bytes()), "{}", bytes);
    if blocks > 0 {
        assert_eq!(rt; image.write(blocks - 1, &[0x5A; 512]), Ok(()), "{}", bytes);
        assert!(rt;
            replaced(image.bytes(), 512 * (blocks as usize - 1), &[0x5A; 512]),
            "{}",
            bytes
        );
    }
}

#[test]
fn images_of_every_size(rt: HostRuntime) -> Result<(), Fail> {
    // Bytes of memory, and the blocks that they are.
    for (bytes, blocks) in [
        (0, 0),
        (511, 0),
        (512, 1),
        (1023, 1),
        (1024, 2),
        (51_207, 100),
    ] {
        let mut memory = patterned(rt.alloc(), bytes)?;
        try_image(&rt, memory.as_mut_slice(), blocks);
    }
    Ok(())
}

// Bad blocks of an image of 60 blocks. The first 32 entries count: odd blocks, block 7 twice, and two numbers past the
// end. The last eight do not: even blocks, and the odd block 59.
const BAD: [u32; 40] = [
    1,
    3,
    5,
    7,
    9,
    11,
    13,
    15,
    17,
    19,
    21,
    23,
    25,
    27,
    29,
    31,
    33,
    35,
    37,
    39,
    41,
    43,
    45,
    47,
    49,
    51,
    53,
    55,
    7,
    60,
    u32::MAX,
    57,
    0,
    2,
    4,
    6,
    8,
    10,
    14,
    59,
];

#[test]
fn thirty_two_bad_blocks_count(rt: HostRuntime) -> Result<(), Fail> {
    let mut memory = patterned(rt.alloc(), 60 * 512)?;
    let mut image = Image::over(memory.as_mut_slice(), &BAD);
    assert_eq!(rt; image.size(), 60);
    for b in 0..60 {
        if b % 2 == 1 && b != 59 {
            refuses(&rt, &mut image, b, DeviceFault::BadBlock(b), 2);
        } else {
            let mut buffer = [0; 512];
            assert_eq!(rt; image.read(b, &mut buffer), Ok(()), "{}", b);
        }
    }
    refuses(&rt, &mut image, 60, DeviceFault::PastEnd(60), 1);
    refuses(&rt, &mut image, u32::MAX, DeviceFault::PastEnd(u32::MAX), 1);
    assert!(rt; untouched(image.bytes()));
    assert_eq!(rt; image.write(59, &[0x5A; 512]), Ok(()));
    assert!(rt; replaced(image.bytes(), 59 * 512, &[0x5A; 512]));
    Ok(())
}

// Blocks 0 to 39 are zeros, but for the one that was written.
pub fn forty_blocks<D: Device>(rt: &impl Abort, d: &D, written: Option<u32>) {
    for b in 0..40 {
        let byte = if written == Some(b) { 0x5A } else { 0 };
        let mut buffer = [0xA5; 512];
        assert_eq!(rt; d.read(b, &mut buffer), Ok(()));
        assert!(rt; buffer == [byte; 512], "{}", b);
    }
}

#[test]
fn scratch_has_40_blocks(rt: HostRuntime) {
    let mut scratch = Scratch::new();
    refuses_past(&rt, &mut scratch, 40);
    forty_blocks(&rt, &scratch, None);
    assert_eq!(rt; scratch.write(39, &[0x5A; 512]), Ok(()));
    forty_blocks(&rt, &scratch, Some(39));
}
