// INITIALIZE: a new volume.
ghost use Rattle.std.specs.Prelude.{◌≡◌, ◌+◌, ◌*◌, ◌≤◌, Ok};
ghost use Rattle.device.specs.Held.{shows};
ghost use Rattle.device.specs.Stacks.{Became};
ghost use Rattle.volume.specs.Transfers.{AllGood};
ghost use Rattle.volume.specs.Initial.{first_segment, laid_out, init_answer, init_blocks};

use crate::entry::empty_of;
use crate::fault::FileFault;
use crate::home::home_block;
use crate::level::{level_size, segments_fit};
use crate::segment::{Header, encode_segment};
use crate::transfer::{store_segment, sweep, write_known, zero_blocks};
use device::Device;
use device::fault::DeviceFault;

// Segment 1 of a new volume: one empty, behind the directory.
#[tactic(auto, unfolding(crate::specs::Initial::first_segment))]
fn first_segment(total: u16, blocks: u16) -> [u8; 1024]
    requires { (total ≤ 31) × (7 + 2 * total ≤ blocks) }
    ensures { result ≡ first_segment total blocks }
{
    let header = Header {
        total,
        next: 0,
        highest: 1,
        extra: 0,
        start: 6 + 2 * total,
    };
    let mut segment = [0; 1024];
    encode_segment(&header, &[empty_of(blocks - 6 - 2 * total)], &mut segment);
    segment
}

// Writes the home block and the directory, whose blocks are known to be good.
fn lay_out<D: Device>(
    d: &mut D,
    total: u16,
    blocks: u16,
    old: &[u8; 512],
) -> Result<(), DeviceFault>
    requires range { (1 ≤ total) × ((total ≤ 31) × (7 + 2 * total ≤ blocks)) }
    requires block { AllGood (shows (D.Device.held d.old)) 1 2 }
    requires directory { AllGood (shows (D.Device.held d.old)) 6 (6 + 2 * total) }
    ensures answer { result ≡ Ok tt }
    ensures after { Became (D.Device.held d.old).stack (laid_out (shows (D.Device.held d.old)) total blocks old.now) (D.Device.held d.new).stack }
    ensures fixed { D.Device.fixed d.new ≡ D.Device.fixed d.old }
{
    write_known(d, 1, &home_block(old))?;
    store_segment(d, 1, &first_segment(total, blocks))?;
    zero_blocks(d, 8, 2 * total as u32 - 2)
}

// Makes a new volume with a directory of so many segments. All blocks that it writes are read first.
pub fn initialize<D: Device>(d: &mut D, segments: u8) -> Result<(), FileFault>
    ensures answer { result ≡ init_answer segments (shows (D.Device.held d.old)) }
    ensures after { Became (D.Device.held d.old).stack (init_blocks segments (shows (D.Device.held d.old))) (D.Device.held d.new).stack }
    ensures fixed { D.Device.fixed d.new ≡ D.Device.fixed d.old }
{
    let total = segments as u16;
    let blocks = level_size(d);
    if !segments_fit(total, blocks) {
        return Err(FileFault::OutOfRange);
    }
    let mut old = [0; 512];
    d.read(1, &mut old)?;
    sweep(d, 6, 2 * total as u32)?;
    lay_out(d, total, blocks, &old)?;
    Ok(())
}
