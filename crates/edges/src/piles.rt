// Runs on packs that lie on windows and floppies.
use crate::floppies::sector_at;
use crate::memory::{patterned, put};
use crate::runs::{Given, Told, play};
use crate::volumes::lay_out;
use device::image::Image;
use files::pack::Pack;
use floppy::Floppy;
use layers::window::Window;
use std::alloc::{AllocError, Global};
use std::process::Abort;
use std::test::Fail;

// INITIALIZE with 2 segments.
const RUN: Given<'static> = Given {
    run: &[1, 1, 0, 2],
    work: 32_768,
    room: 27,
    case: 0,
};

const ACCEPTED: &[u8] = b"00001 01 00 0000000\n";

// The bytes that a floppy over this memory shows, sector by sector.
fn gathered(heap: Global, memory: &[u8]) -> Result<Vec<u8>, AllocError> {
    (0..1976)
        .flat_map(|l| memory.iter().skip(sector_at(l)).take(128))
        .copied()
        .collect(heap)
}

// Puts them back.
fn scatter(memory: &mut [u8], shown: &[u8]) {
    for (l, sector) in (0..1976).zip(shown.chunks(128)) {
        put(memory, sector_at(l), sector);
    }
}

// Does to the memory under a floppy what INITIALIZE with 2 segments does to so many blocks from `start` of the floppy.
fn lay_out_floppy(
    rt: &(impl Abort + AllocGlobal),
    memory: &mut [u8],
    start: usize,
    blocks: u16,
) -> Result<(), Fail> {
    let mut shown = gathered(rt.alloc(), memory)?;
    assert!(rt; start <= 252_928 && shown.len() == 252_928);
    lay_out(&mut shown.as_mut_slice()[start..], 2, blocks);
    scatter(memory, shown.as_slice());
    Ok(())
}

// The same run on a pack that lies on 50 blocks of an image of 100. This function and the two below stay apart, since no trait
// tells what a layer lies on.
fn try_on_window(
    rt: &(impl Abort + AllocGlobal),
    bad: &[u32],
    start: u32,
    lines: &[u8],
    expected: &[u8],
) -> Result<(), Fail> {
    let mut memory = patterned(rt.alloc(), 51_200)?;
    let mut pack = Pack::over(Window::over(Image::over(memory.as_mut_slice(), bad), start, 50));
    play(rt, &mut pack, RUN, Told { lines, end: 0 })?;
    assert!(rt; pack.levels().below().below().bytes() == expected);
    Ok(())
}

#[test]
fn a_pack_on_a_window(rt: HostRuntime) -> Result<(), Fail> {
    let mut expected = patterned(rt.alloc(), 51_200)?;
    // the directory's first block is block 9 of the image
    try_on_window(&rt, &[9], 3, b"00001 01 02 0000006\n", expected.as_slice())?;
    // a window that does not stand has no blocks
    try_on_window(&rt, &[], 51, b"00001 01 12 0000000\n", expected.as_slice())?;
    assert!(rt; expected.len() == 51_200);
    lay_out(&mut expected.as_mut_slice()[1536..], 2, 50);
    try_on_window(&rt, &[], 3, ACCEPTED, expected.as_slice())
}

// The same run on a pack that lies on a floppy over an image of 501 blocks.
fn try_on_floppy(
    rt: &(impl Abort + AllocGlobal),
    bad: &[u32],
    lines: &[u8],
    expected: &[u8],
) -> Result<(), Fail> {
    let mut memory = patterned(rt.alloc(), 256_512)?;
    let mut pack = Pack::over(Floppy::over(Image::over(memory.as_mut_slice(), bad)));
    play(rt, &mut pack, RUN, Told { lines, end: 0 })?;
    assert!(rt; pack.levels().below().below().bytes() == expected);
    Ok(())
}

#[test]
fn a_pack_on_a_floppy(rt: HostRuntime) -> Result<(), Fail> {
    let mut expected = patterned(rt.alloc(), 256_512)?;
    // block 12 below holds the first sector of the floppy's block 6, on track 1 as sector 24, and none of block 1
    try_on_floppy(&rt, &[12], b"00001 01 02 0000006\n", expected.as_slice())?;
    lay_out_floppy(&rt, expected.as_mut_slice(), 0, 494)?;
    try_on_floppy(&rt, &[], ACCEPTED, expected.as_slice())
}

// The same run on 300 blocks from block 100 of a floppy, which lies on 505 blocks from block 4 of an image.
fn try_on_pile(
    rt: &(impl Abort + AllocGlobal),
    memory: &mut [u8],
    expected: &[u8],
) -> Result<(), Fail> {
    let floppy = Floppy::over(Window::over(Image::over(memory, &[]), 4, 505));
    let mut pack = Pack::over(Window::over(floppy, 100, 300));
    let told = Told {
        lines: ACCEPTED,
        end: 0,
    };
    play(rt, &mut pack, RUN, told)?;
    let window = pack.levels().below();
    assert!(rt; window.below().below().below().bytes() == expected);
    Ok(())
}

#[test]
fn a_pack_on_a_pile(rt: HostRuntime) -> Result<(), Fail> {
    let mut memory = patterned(rt.alloc(), 512 * 510)?;
    let mut expected = patterned(rt.alloc(), 512 * 510)?;
    assert!(rt; expected.len() == 512 * 510);
    lay_out_floppy(&rt, &mut expected.as_mut_slice()[2048..], 51_200, 300)?;
    try_on_pile(&rt, memory.as_mut_slice(), expected.as_slice())
}
