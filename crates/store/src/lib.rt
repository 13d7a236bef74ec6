// Segments of the directory written from the workspace to a level.
#![tactic(auto)]

ghost use Rattle.std.specs.Prelude.{◌≡◌, ◌+◌, ◌*◌, ◌≤◌, length, Ok};
ghost use Rattle.device.specs.Held.{shows};
ghost use Rattle.device.specs.Stacks.{Became};
ghost use Rattle.volume.specs.Transfers.{AllGood, halves, overwritten};
ghost use Rattle.segment.specs.Chains.{InDirectory, segment_at};
ghost use Rattle.store.specs.Stores.{RewrittenReads};

use device::Device;
use device::fault::DeviceFault;
use segment::chain::segment_at;
use volume::transfer::store_segment;

// Writes segment k of the workspace to its two blocks. For our other crates: the caller has found the directory sound, and
// so its blocks good.
pub fn store_from<D: Device>(d: &mut D, dir: &[u8], k: usize) -> Result<(), DeviceFault>
    requires range { (k ≤ 31) × InDirectory dir.now k }
    requires known { AllGood (shows (D.Device.held d.old)) (4 + 2 * k) (6 + 2 * k) }
    ensures answer { result ≡ Ok tt }
    ensures after { Became (D.Device.held d.old).stack (overwritten (shows (D.Device.held d.old)) (4 + 2 * k) (halves (segment_at dir.now k))) (D.Device.held d.new).stack }
    ensures fixed { D.Device.fixed d.new ≡ D.Device.fixed d.old }
{
    store_segment(d, k as u32, segment_at(dir, k))
}

// The directory that is read from the blocks is the one that was written.
pub fn rewritten_reads()
    ensures { RewrittenReads }
{}
