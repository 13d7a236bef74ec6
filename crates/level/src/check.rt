// Whether a level is sound.
ghost use Rattle.std.specs.Prelude.{◌≡◌, ℕ, ◌+◌, ◌*◌, ◌≤◌, length, take, IfOk};
ghost use Rattle.device.specs.Held.{shows};
ghost use Rattle.volume.specs.Transfers.{AllGood};
ghost use Rattle.directory.specs.Sounds.{SoundBytes};
ghost use Rattle.level.specs.Loads.{directory};
ghost use Rattle.level.specs.Checks.{check_answer};

use crate::load::{directory_of, load};
use device::Device;
use directory::pending::Pending;
use directory::rules::check_rules;
use volume::fault::FileFault;
use volume::level::level_size;

// Reads the directory of a level into the workspace, unless the level is not sound, and tells how many segments it has. An open
// output of the level goes with it. Device, workspace and output stay three parameters: each call is lent its own.
pub fn check<D: Device>(d: &D, work: &mut [u8], output: Option<Pending>) -> Result<usize, FileFault>
    ensures answer { result ≡ check_answer (length work.old) (shows (D.Device.held d.now)) output }
    ensures bytes { IfOk result (λ s. take (1024 * s) work.new ≡ directory (shows (D.Device.held d.now)) s) }
    ensures sound { IfOk result (λ s. SoundBytes (take (1024 * s) work.new)) }
    ensures good { IfOk result (λ s. AllGood (shows (D.Device.held d.now)) 6 (6 + 2 * s)) }
    ensures range { IfOk result (λ s. (1 ≤ s) × (s ≤ 31) × (32768 ≤ length work.old)) }
{
    let total = load(d, work)?;
    check_rules(directory_of(work, total), level_size(d), output)?;
    Ok(total)
}
