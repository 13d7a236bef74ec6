// Tries the check of a level on directories that break its rules one by one and several at once, then LOOKUP and READ, and prints
// a line for each: 00 where the call is accepted, else the number that is returned and its detail.
#![tactic(auto)]

use device::image::Image;
use directory::pending::Pending;
use level::check::check;
use level::load::WORKSPACE;
use level::lookup::{lookup, read_file};
use std::alloc::AllocError;
use std::io;
use volume::fault::FileFault;

mod cases;
mod outputs;
mod patches;
mod searches;
mod volumes;

use cases::{Case, Disk};
use outputs::{Opened, opened_outputs, remembered};
use patches::{Patch, put_patches};
use searches::{Search, searches};
use volumes::{Volume, put_volume};

// The memory of a volume on so many blocks, with some words of its directory changed.
fn changed(
    rt: &HostRuntime,
    volume: Volume,
    blocks: usize,
    patches: &[Patch],
) -> Result<Vec<u8>, AllocError> {
    let mut memory = vec![in rt.alloc(); 0u8; blocks.saturating_mul(512)]?;
    put_volume(memory.as_mut_slice(), volume);
    put_patches(memory.as_mut_slice(), patches);
    Ok(memory)
}

fn print_fault(rt: &HostRuntime, label: &str, fault: FileFault) -> io::Result<()> {
    let number = fault.number();
    let detail = fault.detail();
    println!(rt; "{label}: {number:02} {detail}")
}

// What the check of a level says.
fn print_check(
    rt: &HostRuntime,
    label: &str,
    image: &Image,
    work: &mut [u8],
    output: Option<Pending>,
) -> io::Result<()> {
    match check(image, work, output) {
        Ok(_) => println!(rt; "{label}: 00"),
        Err(fault) => print_fault(rt, label, fault),
    }
}

fn try_check(rt: &HostRuntime, case: &Case, work: &mut [u8]) -> io::Result<()> {
    let Case(label, Disk(volume, blocks, bad), patches) = *case;
    let mut memory = changed(rt, volume, blocks, patches)?;
    let image = Image::over(memory.as_mut_slice(), bad);
    print_check(rt, label, &image, work, None)
}

// The cases share a workspace, so that each finds there what the one before has left.
fn try_cases(rt: &HostRuntime, cases: &[Case], work: &mut [u8]) -> io::Result<()> {
    for case in cases {
        try_check(rt, case, work)?;
    }
    Ok(())
}

// What is changed once the output is open is not remembered.
fn try_output(rt: &HostRuntime, case: &Opened, work: &mut [u8]) -> io::Result<()> {
    let Opened(label, extra, left, patches) = *case;
    let mut memory = changed(rt, Volume::System(extra), 100, left)?;
    let output = remembered(memory.as_slice(), extra);
    put_patches(memory.as_mut_slice(), patches);
    let image = Image::over(memory.as_mut_slice(), &[]);
    print_check(rt, label, &image, work, Some(output))
}

fn try_outputs(rt: &HostRuntime, work: &mut [u8]) -> io::Result<()> {
    for case in opened_outputs() {
        try_output(rt, case, work)?;
    }
    Ok(())
}

// As one function with `try_read`, each line that is printed would have to ask which it is.
fn try_lookup(rt: &HostRuntime, search: &Search) -> io::Result<()> {
    let label = search.label;
    let mut memory = changed(rt, Volume::System(0), 100, search.patches)?;
    let mut work = vec![in rt.alloc(); 0u8; search.workspace]?;
    let image = Image::over(memory.as_mut_slice(), search.bad);
    match lookup(&image, work.as_mut_slice(), None, search.name) {
        Ok((start, length, date)) => {
            println!(rt; "{label}: 00 start {start} length {length} date {date}")
        }
        Err(fault) => print_fault(rt, label, fault),
    }
}

fn try_read(rt: &HostRuntime, search: &Search, block: u16) -> io::Result<()> {
    let label = search.label;
    let mut memory = changed(rt, Volume::System(0), 100, search.patches)?;
    let mut work = vec![in rt.alloc(); 0u8; search.workspace]?;
    let image = Image::over(memory.as_mut_slice(), search.bad);
    let mut bytes = [0; 512];
    match read_file(
        &image,
        work.as_mut_slice(),
        None,
        search.name,
        block,
        &mut bytes,
    ) {
        Ok(()) => {
            let last = bytes[511];
            println!(rt; "{label}: 00 byte {last}")
        }
        Err(fault) => print_fault(rt, label, fault),
    }
}

fn try_searches(rt: &HostRuntime) -> io::Result<()> {
    for search in searches() {
        match search.block {
            None => try_lookup(rt, search)?,
            Some(block) => try_read(rt, search, block)?,
        }
    }
    Ok(())
}

fn main(rt: HostRuntime) -> io::Result<()> {
    let mut work = vec![in rt.alloc(); 0u8; WORKSPACE]?;
    let work = work.as_mut_slice();
    let mut small = vec![in rt.alloc(); 0u8; WORKSPACE - 1]?;
    for group in [
        cases::sound(),
        cases::sizes(),
        cases::totals(),
        cases::bad_blocks(),
        cases::highest_in_use(),
        cases::chains(),
        cases::extra_bytes(),
        cases::entries(),
        cases::places(),
        cases::name_words(),
        cases::names(),
        cases::several(),
    ] {
        try_cases(&rt, group, &mut *work)?;
    }
    try_cases(&rt, cases::small_workspace(), small.as_mut_slice())?;
    try_outputs(&rt, work)?;
    try_searches(&rt)
}
