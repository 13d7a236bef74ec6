// Packs a zero image of 100 blocks as the run on the standard input says, and prints the report and the listing.
#![tactic(auto)]

use device::image::Image;
use files::pack::Pack;
use level::load::WORKSPACE;
use run::play::{Stop, run};
use std::io;
use std::io::Read;

// The bytes that a run may have.
const MOST: usize = 8192;

// The bytes of the image.
const IMAGE: usize = 51_200;

// A field takes three bytes and more, so a run has at most 2,730 of them and a rest, each with room for a line.
const REPORT: usize = 54_620;

// At most 31 segments of 72 files, 30 bytes each, and a last line.
const LISTING: usize = 67_008;

// The number of a refusal as a line of two digits.
fn print_number(rt: &HostRuntime, number: u8) -> io::Result<()> {
    println!(rt; "{number:02}")
}

fn main(rt: HostRuntime) -> io::Result<()> {
    let heap = rt.alloc();
    let mut input = Vec::new(heap);
    // One byte more than a run may have, so that a longer one shows.
    rt.stdin().take(MOST as u64 + 1).read_to_end(&mut input)?;
    if input.len() > MOST {
        return print_number(&rt, Stop::RunTooLong.number());
    }
    let mut memory = vec![in heap; 0u8; IMAGE]?;
    let mut work = vec![in heap; 0u8; WORKSPACE]?;
    let mut report = vec![in heap; 0u8; REPORT]?;
    let mut pack = Pack::over(Image::over(memory.as_mut_slice(), &[]));
    let ran = run(
        &mut pack,
        input.as_slice(),
        work.as_mut_slice(),
        report.as_mut_slice(),
    );
    rt.stdout().write_all(&report[0..20 * ran.lines])?;
    if let Err(stop) = ran.end {
        print_number(&rt, stop.number())?;
    }
    let mut listing = vec![in heap; 0u8; LISTING]?;
    match pack.directory(work.as_mut_slice(), listing.as_mut_slice()) {
        Ok(length) => rt.stdout().write_all(&listing[0..length]),
        Err(fault) => print_number(&rt, fault.number()),
    }
}
