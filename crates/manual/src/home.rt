// The home block and the directory of a new volume.
ghost use Rattle.std.specs.Prelude.{◌≡◌};
ghost use Rattle.device.specs.Answers.{fetch};
ghost use Rattle.device.specs.Held.{shows};

use crate::paper::{Octal, Quoted, Words, heading, line};
use codec::words::word_at;
use device::Device;
use device::fault::DeviceFault;
use device::image::Image;
use std::io;
use volume::initial::initialize;

// The bytes of 100 blocks.
const IMAGE: usize = 51_200;

fn show_home(rt: &HostRuntime, block: &[u8; 512]) -> io::Result<()> {
    let cluster = Octal(word_at(block, 466));
    let directory = Octal(word_at(block, 468));
    let version = Octal(word_at(block, 470));
    line(rt, "word at 466, pack cluster size", cluster)?;
    line(rt, "word at 468, first directory block", directory)?;
    line(rt, "word at 470, system version", version)?;
    line(rt, "text at 472, volume", Quoted(&block[472..484]))?;
    line(rt, "text at 484, owner", Quoted(&block[484..496]))?;
    line(rt, "text at 496, system", Quoted(&block[496..508]))?;
    line(rt, "word at 510, checksum", Octal(word_at(block, 510)))
}

fn show_segment(rt: &HostRuntime, block: &[u8; 512]) -> io::Result<()> {
    line(rt, "segment 1, header", Words(&block[0..10]))?;
    line(rt, "segment 1, the empty", Words(&block[10..24]))?;
    line(rt, "segment 1, end", Words(&block[24..26]))
}

// A block of a device.
fn block_of<D: Device>(d: &D, b: u32) -> Result<[u8; 512], DeviceFault>
    ensures { result ≡ fetch (shows (D.Device.held d.now)) b }
{
    let mut block = [0; 512];
    d.read(b, &mut block)?;
    Ok(block)
}

// The home block and the first of the directory.
fn show_volume<D: Device>(rt: &HostRuntime, d: &D) -> io::Result<()> {
    match block_of(d, 1) {
        Ok(block) => show_home(rt, &block)?,
        Err(fault) => line(rt, "block 1, refused with", fault.number())?,
    }
    match block_of(d, 6) {
        Ok(block) => show_segment(rt, &block),
        Err(fault) => line(rt, "block 6, refused with", fault.number()),
    }
}

pub(crate) fn home(rt: &HostRuntime) -> io::Result<()> {
    heading(
        rt,
        "A new volume: INITIALIZE with one segment on 100 blocks of zeros",
    )?;
    let mut memory = vec![in rt.alloc(); 0u8; IMAGE]?;
    let mut image = Image::over(memory.as_mut_slice(), &[]);
    match initialize(&mut image, 1) {
        Ok(()) => show_volume(rt, &image),
        Err(fault) => line(rt, "refused with", fault.number()),
    }
}
