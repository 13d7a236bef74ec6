// The directory of a level, read into the workspace.
ghost use Rattle.std.specs.Prelude.{◌≡◌, ℕ, ◌+◌, ◌-◌, ◌*◌, ◌≤◌, length, take, IfOk, OnOk};
ghost use Rattle.device.specs.Held.{shows};
ghost use Rattle.device.specs.Answers.{fetch, answered};
ghost use Rattle.codec.specs.Words.{word_at};
ghost use Rattle.volume.specs.Transfers.{readable, AllGood};
ghost use Rattle.level.specs.Loads.{brought, Holds, directory, load_answer};

use codec::words::{put, word_at};
use device::Device;
use device::fault::DeviceFault;
use volume::fault::FileFault;
use volume::level::{level_size, segments_fit};
use volume::rule::Rule;

// The bytes of workspace that a call asks for.
pub const WORKSPACE: usize = 32_768;

// Reads block b to a place of the workspace.
fn read_to<D: Device>(d: &D, b: u32, work: &mut [u8], at: usize) -> Result<(), DeviceFault>
    requires { at + 512 ≤ length work.old }
    ensures answer { result ≡ answered (fetch (shows (D.Device.held d.now)) b) }
    ensures workspace { work.new ≡ brought (fetch (shows (D.Device.held d.now)) b) work.old at }
{
    let mut block = [0; 512];
    d.read(b, &mut block)?;
    put(work, at, &block);
    Ok(())
}

// Reads the blocks of the directory from number `from` to before number `to`, counted from its first, up to the one that is refused.
fn read_blocks<D: Device>(d: &D, from: u32, to: u32, work: &mut [u8]) -> Result<(), DeviceFault>
    requires range { (from ≤ to) × ((to ≤ 62) × (512 * to ≤ length work.old)) }
    requires before { Holds (shows (D.Device.held d.now)) (512 * from) work.old }
    ensures answer { result ≡ readable (shows (D.Device.held d.now)) (6 + from) (to - from) }
    ensures bytes { OnOk result (Holds (shows (D.Device.held d.now)) (512 * to) work.new) }
{
    // No plainer by `as_chunks_mut`: a block's number is its place in the workspace too.
    for i in from..to {
        read_to(d, 6 + i, work, 512 * i as usize)?;
    }
    Ok(())
}

// Reads the directory of a level into the workspace, and tells how many segments it has. Rules 1 and 2 of a sound level are
// checked on the way.
pub fn load<D: Device>(d: &D, work: &mut [u8]) -> Result<usize, FileFault>
    ensures answer { result ≡ load_answer (length work.old) (shows (D.Device.held d.now)) }
    ensures bytes { IfOk result (λ s. take (1024 * s) work.new ≡ directory (shows (D.Device.held d.now)) s) }
    ensures good { IfOk result (λ s. AllGood (shows (D.Device.held d.now)) 6 (6 + 2 * s)) }
    ensures range { IfOk result (λ s. (1 ≤ s) × (s ≤ 31) × (32768 ≤ length work.old) × (word_at work.new 0 ≡ s)) }
{
    if work.len() < WORKSPACE {
        return Err(FileFault::WorkspaceTooSmall);
    }
    let blocks = level_size(d);
    if blocks < 9 {
        return Err(FileFault::NotSound(Rule::LevelSize));
    }
    read_blocks(d, 0, 2, work)?;
    let total = word_at(work, 0);
    if !segments_fit(total, blocks) {
        return Err(FileFault::NotSound(Rule::DirectorySize));
    }
    read_blocks(d, 2, 2 * total as u32, work)?;
    Ok(total as usize)
}

// The bytes of a directory of so many segments. For our other crates: the caller has loaded it.
pub fn directory_of(work: &[u8], total: usize) -> &[u8]
    requires { (total ≤ 31) × (1024 * total ≤ length work.now) }
    ensures { result.now ≡ take (1024 * total) work.now }
{
    &work[0..1024 * total]
}
