// Windows that fit, that do not, and that lie on others.
use crate::devices::{refuses, refuses_past};
use crate::memory::{patterned, replaced, untouched};
use device::Device;
use device::fault::DeviceFault;
use device::image::Image;
use device::scratch::Scratch;
use layers::window::Window;
use std::process::Abort;
use std::test::Fail;

// A window over an image of 40 blocks has this standing and shows so many blocks.
fn try_window(
    rt: &impl Abort,
    memory: &mut [u8],
    start: u32,
    length: u32,
    standing: u8,
    blocks: u32,
) {
    let mut window = Window::over(Image::over(memory, &[]), start, length);
    assert_eq!(rt;
        window.standing().number(),
        standing,
        "{}; {}",
        start,
        length
    );
    refuses_past(rt, &mut window, blocks);
    assert!(rt; untouched(window.below().bytes()), "{}; {}", start, length);
    if blocks > 0 {
        // each of the windows tried that shows blocks ends where the image does
        assert_eq!(rt;
            window.write(blocks - 1, &[0x5A; 512]),
            Ok(()),
            "{}; {}",
            start,
            length
        );
        assert!(rt;
            replaced(window.below().bytes(), 39 * 512, &[0x5A; 512]),
            "{}; {}",
            start,
            length
        );
    }
}

#[test]
fn starts_and_lengths(rt: HostRuntime) -> Result<(), Fail> {
    // Over 40 blocks: the start and the length, the standing and the blocks shown.
    let cases = [
        (0, 40, 0, 40),
        (0, 41, 3, 0),
        (1, 39, 0, 39),
        (1, 40, 3, 0),
        (39, 1, 0, 1),
        (40, 0, 0, 0),
        (40, 1, 3, 0),
        (41, 0, 3, 0),
        (0, 0, 0, 0),
        (1, u32::MAX, 3, 0),
        (u32::MAX, 0, 3, 0),
        (u32::MAX, 1, 3, 0),
        (u32::MAX, u32::MAX, 3, 0),
    ];
    for (start, length, standing, blocks) in cases {
        let mut memory = patterned(rt.alloc(), 20_480)?;
        try_window(&rt, memory.as_mut_slice(), start, length, standing, blocks);
    }
    Ok(())
}

// A window of `length` blocks over one that does not stand and so has none.
fn try_on_fallen(rt: &impl Abort, length: u32, standing: u8) {
    let mut window = Window::over(Window::over(Scratch::new(), 41, 0), 0, length);
    assert_eq!(rt; window.below().standing().number(), 3);
    assert_eq!(rt; window.standing().number(), standing);
    refuses_past(rt, &mut window, 0);
}

#[test]
fn on_a_window_that_does_not_stand(rt: HostRuntime) {
    try_on_fallen(&rt, 0, 0);
    try_on_fallen(&rt, 1, 3);
}

// The image's bad block 10 is block 5 of the outer window and block 2 of the inner one.
fn try_nested(rt: &impl Abort, memory: &mut [u8]) {
    let mut window = Window::over(Window::over(Image::over(memory, &[10]), 5, 20), 3, 10);
    refuses(rt, &mut window, 2, DeviceFault::BadBlock(2), 2);
    refuses_past(rt, &mut window, 10);
    assert_eq!(rt; window.write(9, &[0x5A; 512]), Ok(()));
    assert!(rt; replaced(window.below().below().bytes(), 17 * 512, &[0x5A; 512]));
}

#[test]
fn windows_on_windows(rt: HostRuntime) -> Result<(), Fail> {
    let mut memory = patterned(rt.alloc(), 20_480)?;
    try_nested(&rt, memory.as_mut_slice());
    Ok(())
}
